//! Proof texts.
ghost use Rattle.std.specs.Prelude.{◌≡◌, ◌++◌, codes, OnOk, IfOk};
ghost use Rattle.ae_prooftext.specs.Texts.{heading_text, proof_text};
ghost use Rattle.ae_prooftext.specs.Inner.Pieces.{numbers_bytes};

use crate::bytes::{put, put_number_list};
use crate::lines::put_lines;
use ae_core::lists::List;
use ae_core::problems::Signature;
use ae_core::proofs::Proof;
use std::alloc::{AllocError, Global};

/// A proof as it is written: alone in version 1, with the places of the axioms that it rests on in version 2.
#[derive(Drop)]
pub struct ProofText {
    /// The places of axioms among the problem's items, rising, each once; `None` is version 1.
    pub axioms: Option<List<usize>>,
    pub proof: Proof,
}

/// Puts the first lines of a proof text, which tell its version.
fn put_heading(out: &mut Vec<u8>, axioms: &Option<List<usize>>) -> Result<(), AllocError>
    ensures { OnOk result (out.new.items ≡ out.old.items ++ heading_text axioms.now) }
{
    match axioms {
        None => put(out, b"proof 1\n"),
        Some(places) => put_axioms(out, places.as_slice()),
    }
}

fn put_axioms(out: &mut Vec<u8>, places: &[usize]) -> Result<(), AllocError>
    ensures { OnOk result (out.new.items ≡ out.old.items ++ (codes "proof 2\naxioms [" ++ (numbers_bytes places.now ++ codes "\n"))) }
{
    put(out, b"proof 2\naxioms [")?;
    put_number_list(out, places)?;
    put(out, b"\n")
}

/// Puts a proof text at the end; `Err` where there is no memory for it.
#[tactic(auto, unfolding(crate::specs::Texts::proof_text))]
pub fn put_proof(
    out: &mut Vec<u8>,
    signature: &Signature,
    text: &ProofText,
) -> Result<(), AllocError>
    ensures text { OnOk result (out.new.items ≡ out.old.items ++ proof_text signature.now text.now) }
{
    put_heading(out, &text.axioms)?;
    put_lines(out, signature, text.proof.lines.as_slice())
}

/// The text of a proof: `proof 1` or `proof 2` with its axioms, the clause lines, and `end`. `Err` where there is no memory for it.
pub fn write_proof(
    alloc: Global,
    signature: &Signature,
    text: &ProofText,
) -> Result<Vec<u8>, AllocError>
    ensures text { IfOk result (λ bytes. bytes.items ≡ proof_text signature.now text.now) }
{
    let mut out = Vec::new(alloc);
    put_proof(&mut out, signature, text)?;
    Ok(out)
}
