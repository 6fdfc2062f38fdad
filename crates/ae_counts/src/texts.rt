//! Proof texts.
ghost use Rattle.std.specs.Prelude.{◌≡◌, [], true};
ghost use Rattle.std.specs.List.{list_all};
ghost use Rattle.std.specs.List.Sorted.{IsStrictlyIncreasing};
ghost use Rattle.ae_base.specs.Options.{or_else};
ghost use Rattle.ae_legal_texts.specs.Writable.{IsWithinLimits};
ghost use Rattle.ae_writable.specs.Writable.{IsWritableProof};
ghost use Rattle.ae_counts.specs.Inner.Counted as spec;

use crate::lines::lines_count;
use crate::numbers::numbers_count;
use ae_core::lists::List;
use ae_prooftext::ProofText;

fn places_count(places: &Option<List<usize>>)
    ensures { spec.places_count places.now ≡ true }
{
    match places {
        None => {}
        Some(numbers) => numbers_count(numbers.as_slice()),
    }
}

/// Walks over a proof with the places of its axioms, and answers nothing: each number of something in it is a machine's, and so has 64 bits. A writable
/// proof in memory keeps within the limits of its text, where the places rise. It takes no memory, and its time is linear in the proof.
pub fn proof_counts(text: &ProofText)
    ensures limits { IsWritableProof text.now.proof → IsStrictlyIncreasing (or_else text.now.axioms []) → IsWithinLimits text.now }
{
    places_count(&text.axioms);
    lines_count(text.proof.lines.as_slice());
}
