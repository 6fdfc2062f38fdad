//! The verdict on a part of an output.
ghost use Rattle.std.specs.Prelude.{Some, IfOk};
ghost use Rattle.std.specs.Bool.{Decides};
ghost use Rattle.std.specs.Option.{option_copied};
ghost use Rattle.ae_trim.specs.Axioms.{AreAxioms};
ghost use Rattle.ae_verdicts.specs.Verdicts.{IsVerdict, ListsItsAxioms};

use crate::lines::Verdict;
use ae_check::verdict as proofs;
use ae_check::verdict::{CheckFail, check};
use ae_core::problems::Problem;
use ae_core::proofs::Proof;
use ae_prooftext::ProofText;
use ae_trim::axioms::axioms_of;
use std::alloc::{AllocError, Global};

/// Whether these are the places of the axioms of a proof.
fn are_its_axioms(alloc: Global, proof: &Proof, places: &[usize]) -> Result<bool, AllocError>
    ensures { IfOk result (λ own. Decides own (AreAxioms proof.now places.now)) }
{
    let own = axioms_of(alloc, proof)?;
    Ok(own.as_slice() == places)
}

/// Whether a text lists the axioms of its proof; one of version 1 lists none and is taken as it is.
fn lists_its_axioms(alloc: Global, text: &ProofText) -> Result<bool, AllocError>
    ensures { IfOk result (λ own. Decides own (ListsItsAxioms text.now)) }
{
    match &text.axioms {
        None => Ok(true),
        Some(places) => are_its_axioms(alloc, &text.proof, places.as_slice()),
    }
}

/// The verdict on a proof text for the goal at place `goal` among the items of a problem: it is never `Unchecked`.
///
/// `Number` comes exactly where the first line that isn't settled states a product or a sum outside the limits. Where there is none,
/// `Accepted` and `RefusedAxioms` come exactly where the proof derives the goal, by whether the text lists the axioms of its proof, and
/// `Refused` in every other case. `Err` where there is no memory for the check.
pub fn verdict(
    alloc: Global,
    problem: &Problem,
    goal: usize,
    text: &ProofText,
) -> Result<Verdict, AllocError>
    ensures exact { IfOk result (IsVerdict problem.now goal (Some text.now)) }
{
    match check(alloc, problem, goal, &text.proof) {
        Ok(proofs::Verdict::Accepted) => {
            if lists_its_axioms(alloc, text)? {
                return Ok(Verdict::Accepted);
            }
            Ok(Verdict::RefusedAxioms)
        }
        Ok(proofs::Verdict::Refused { line }) => Ok(Verdict::Refused(line)),
        Err(CheckFail::Number(_)) => Ok(Verdict::Number),
        Err(CheckFail::Memory(refused)) => Err(refused),
    }
}

/// The verdict on a part: `Unchecked` exactly where it is no proof, which `None` says.
pub fn verdict_on_part(
    alloc: Global,
    problem: &Problem,
    goal: usize,
    proof: Option<&ProofText>,
) -> Result<Verdict, AllocError>
    ensures exact { IfOk result (IsVerdict problem.now goal (option_copied proof.entry)) }
{
    match proof {
        None => Ok(Verdict::Unchecked),
        Some(text) => verdict(alloc, problem, goal, text),
    }
}
