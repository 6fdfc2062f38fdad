//! Whole texts of proofs.
ghost use Rattle.std.specs.Prelude.{◌≡◌, ◌≤◌, length, drop, IfErr};
ghost use Rattle.ae_choices.specs.Choices.{picked};
ghost use Rattle.ae_choices.specs.Whole.{ReadsWhole};
ghost use Rattle.ae_prooftext.specs.Grammar.{proof_code};
ghost use Rattle.ae_proofreader.specs.Versions.{version_all, version_arms};
ghost use Rattle.ae_proofreader.specs.Whole.{StandsIn};
ghost use Rattle.ae_readers.specs.Readers.{Reads, ReadsExactly, Ahead, most};

use crate::places::read_places;
use ae_choices::behind_word;
use ae_core::problems::Signature;
use ae_core::proofs::Proof;
use ae_linereader::read_lines;
use ae_prooftext::ProofText;
use ae_readers::{Fault, farther, place, read_fixed};
use ae_termreader::Tables;
use std::alloc::Global;

// Where the first line of no version goes on.
fn version_wrong(text: &[u8], at: usize) -> usize
    ensures behind { drop result text.now ≡ drop (most 0 version_all (drop at text.now)) (drop at text.now) }
    ensures within { result ≤ length text.now }
{
    let far = farther(text, at, b"proof 1\n", 0);
    let far = farther(text, at, b"proof 2\naxioms [", far);
    place(text, at, far)
}

// A proof text that begins at a place.
fn read_version(
    alloc: Global,
    tables: &Tables<'_>,
    text: &[u8],
    at: usize,
) -> Result<(ProofText, usize), Fault>
    ensures read { Reads text.now result (picked version_all (version_arms tables.now.signature.now) (drop at text.now)) }
    ensures ahead { Ahead text.now at result }
{
    if let Some(behind) = behind_word(text, at, b"proof 1\n") {
        let (lines, next) = read_lines(alloc, tables, text, behind)?;
        let proof = Proof { lines };
        return Ok((
            ProofText {
                axioms: None,
                proof,
            },
            next,
        ));
    }
    if let Some(behind) = behind_word(text, at, b"proof 2\naxioms [") {
        let (places, end) = read_places(alloc, text, behind)?;
        let (_, begin) = read_fixed(text, end, b"\n")?;
        let (lines, next) = read_lines(alloc, tables, text, begin)?;
        let proof = Proof { lines };
        return Ok((
            ProofText {
                axioms: Some(places),
                proof,
            },
            next,
        ));
    }
    Err(Fault::At(version_wrong(text, at)))
}

/// The proof, in version 1 or in version 2, whose text begins at a place, and the place behind that text.
pub fn read_proof_at(
    alloc: Global,
    tables: &Tables<'_>,
    text: &[u8],
    at: usize,
) -> Result<(ProofText, usize), Fault>
    ensures read { Reads text.now result ((proof_code tables.now.signature.now).read (drop at text.now)) }
    ensures exact { ReadsExactly (proof_code tables.now.signature.now) text.now at result }
    ensures ahead { Ahead text.now at result }
{
    read_version(alloc, tables, text, at)
}

fn read_text(alloc: Global, tables: &Tables<'_>, text: &[u8]) -> Result<ProofText, Fault>
    ensures exact { ReadsWhole (proof_code tables.now.signature.now) text.now result }
    ensures within { IfErr result (λ f. StandsIn text.now f) }
{
    match read_proof_at(alloc, tables, text, 0) {
        Err(fault) => Err(fault),
        Ok((proof, end)) => {
            if end < text.len() {
                return Err(Fault::At(end));
            }
            Ok(proof)
        }
    }
}

/// The proof over a signature whose text this is, in version 1 or in version 2. `At`: exactly where it is no such text, the place of the first byte that no
/// such text continues, or the text's length where its end comes too early. `WideNumber`: the place of the first number outside the limits before any such byte.
/// `Memory`: there is not enough of it.
pub fn read_proof(alloc: Global, signature: &Signature, text: &[u8]) -> Result<ProofText, Fault>
    ensures exact { ReadsWhole (proof_code signature.now) text.now result }
    ensures within { IfErr result (λ f. StandsIn text.now f) }
{
    match Tables::new(alloc, signature) {
        Err(_) => Err(Fault::Memory),
        Ok(tables) => read_text(alloc, &tables, text),
    }
}
