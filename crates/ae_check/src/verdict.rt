//! The verdict on a proof.
ghost use Rattle.std.specs.Prelude.{◌≡◌, [], IfOk, IfErr, OnOk, MatchOption};
ghost use Rattle.ae_num.specs.Forms.{IfWide};
ghost use Rattle.ae_rules.specs.Derivations.{AreAllowed};
ghost use Rattle.ae_calc.specs.Reached.{Fit, FirstWide, ProofReaches};
ghost use Rattle.ae_check.specs.Verdicts.{Says, StopsAt, IfNumber, failed};
ghost use Rattle.ae_check.specs.declared.verdict.CheckFail.TheVariants as fail;

use crate::known::{nothing, take_line};
use ae_calc::derivation::ends_empty;
use ae_core::problems::Problem;
use ae_core::proofs::{ClauseLine, Proof};
use ae_num::numbers::{NumFail, Wide};
use std::alloc::{AllocError, Global};

/// What is found of a proof.
#[derive(Clone, Copy, Debug, PartialEq, Eq)]
pub enum Verdict {
    /// It derives the goal.
    Accepted,
    /// It doesn't: `line` is the first line that isn't allowed, counted from 0, or the number of lines where all are allowed and the last one
    /// doesn't state the empty clause.
    Refused { line: usize },
}

/// Why there is no verdict.
#[derive(Clone, Copy, Debug, PartialEq, Eq, thiserror::Error)]
pub enum CheckFail {
    /// A product or a sum that a line states leaves the limits, and each line before it is allowed.
    #[error("a product or a sum leaves the limits on numbers")]
    Number(Wide),
    /// There was no memory for the check.
    #[error("no memory")]
    Memory(AllocError),
}

impl From<AllocError> for CheckFail {
    ghost from_gives = { λ m e. e ≡ fail.Memory m };

    fn from(refused: AllocError) -> CheckFail {
        CheckFail::Memory(refused)
    }
}

impl From<NumFail> for CheckFail {
    ghost from_gives = { λ n e. e ≡ failed n };

    fn from(refused: NumFail) -> CheckFail {
        match refused {
            NumFail::Wide(wide) => CheckFail::Number(wide),
            NumFail::Memory(memory) => CheckFail::Memory(memory),
        }
    }
}

/// The first line that isn't allowed after those before it; none where each one is. No line is looked at again for a later one.
fn first_refused(
    alloc: Global,
    problem: &Problem,
    goal: usize,
    lines: &[ClauseLine],
) -> Result<Option<usize>, NumFail>
    ensures exact { IfOk result (λ found. MatchOption found (AreAllowed problem.now goal [] lines.now) (StopsAt problem.now goal lines.now)) }
    ensures fits { OnOk result (Fit (ProofReaches problem.now goal [] lines.now)) }
    ensures wide { IfErr result (λ fail. IfWide fail (FirstWide (ProofReaches problem.now goal [] lines.now))) }
{
    let mut known = nothing(alloc);
    for i in 0..lines.len() {
        if !take_line(alloc, problem, goal, &lines[..i], &lines[i], &mut known)? {
            return Ok(Some(i));
        }
    }
    Ok(None)
}

/// The verdict on a proof of the goal at place `goal` among the items of a problem.
///
/// The lines are taken in their order, up to the first one that isn't allowed after those before it, or that states a product or a sum
/// outside the limits. `Number` comes exactly where that line states such a product or sum, with the first one; `Accepted` exactly where
/// there is no such line and the last line states the empty clause.
pub fn check(
    alloc: Global,
    problem: &Problem,
    goal: usize,
    proof: &Proof,
) -> Result<Verdict, CheckFail>
    ensures exact { IfOk result (Says problem.now goal proof.now) }
    ensures fits { OnOk result (Fit (ProofReaches problem.now goal [] proof.now.lines)) }
    ensures number { IfErr result (λ fail. IfNumber fail (FirstWide (ProofReaches problem.now goal [] proof.now.lines))) }
{
    let lines = proof.lines.as_slice();
    if let Some(line) = first_refused(alloc, problem, goal, lines)? {
        return Ok(Verdict::Refused { line });
    }
    if !ends_empty(alloc, problem, goal, lines)? {
        return Ok(Verdict::Refused { line: lines.len() });
    }
    Ok(Verdict::Accepted)
}
