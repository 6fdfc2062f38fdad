//! What is printed for a proof.
ghost use Rattle.std.specs.Prelude.{◌≡◌, ◌++◌, codes, IfOk, OnOk};
ghost use Rattle.ae_core.specs.Signatures.{IsLawful};
ghost use Rattle.ae_parts.specs.Parts.{part_text};
ghost use Rattle.ae_parts.specs.declared.parts.Part.TheVariants.{Valid as ValidPart};
ghost use Rattle.ae_printed.specs.ReadBack.{IsReadBack};
ghost use Rattle.ae_rules.specs.Derivations.{Derives};
ghost use Rattle.ae_statetext.specs.AnswerTexts.{goal_line};
ghost use Rattle.ae_goal_parts.specs.Inner.Items.{IsGoalNamed};
ghost use Rattle.ae_writable.specs.Writable.{IsWritableProof};
ghost use Rattle.ae_goal_parts.specs.Inner.Shown.{IsShownProof};

use ae_core::problems::{Problem, Signature};
use ae_core::proofs::Proof;
use ae_core::words::Word;
use ae_counts::proof_counts;
use ae_prooftext::{ProofText, put, put_proof};
use ae_trim::axioms::axioms_of;
use ae_trim::trim::trim;
use std::alloc::{AllocError, Global};

// Puts the line that says that a goal is valid.
fn put_valid_line(out: &mut Vec<u8>, name: &Word) -> Result<(), AllocError>
    ensures { OnOk result (out.new.items ≡ out.old.items ++ goal_line name.now (codes " Valid")) }
{
    put(out, b"goal ")?;
    put(out, name.as_str().as_bytes())?;
    put(out, b" Valid")?;
    put(out, b"\n")
}

// The part of a goal that has this proof.
fn proof_part(
    alloc: Global,
    signature: &Signature,
    name: &Word,
    text: &ProofText,
) -> Result<Vec<u8>, AllocError>
    ensures { IfOk result (λ part. part.items ≡ part_text signature.now name.now (ValidPart text.now)) }
{
    let mut part = Vec::new(alloc);
    put_valid_line(&mut part, name)?;
    put_proof(&mut part, signature, text)?;
    Ok(part)
}

/// The part of a goal that this proof derives: the used lines of the proof, and its axioms. It is read back, since the proof is writable.
pub fn valid_part(
    alloc: Global,
    problem: &Problem,
    goal: usize,
    name: &Word,
    proof: &Proof,
) -> Result<Vec<u8>, AllocError>
    requires lawful { IsLawful problem.now.signature }
    requires named { IsGoalNamed problem.now goal name.now }
    requires derives { Derives problem.now goal proof.now }
    requires writable { IsWritableProof proof.now }
    ensures shown { IfOk result (λ part. IsShownProof problem.now.signature name.now proof.now part.items) }
    ensures read_back { IfOk result (λ part. IsReadBack problem.now goal part.items) }
{
    let trimmed = trim(alloc, proof)?;
    let places = axioms_of(alloc, &trimmed)?;
    let text = ProofText {
        axioms: Some(places),
        proof: trimmed,
    };
    proof_counts(&text);
    proof_part(alloc, &problem.signature, name, &text)
}
