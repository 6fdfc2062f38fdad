//! Whether a proof derives its goal.
ghost use Rattle.std.specs.Prelude.{◌↔◌, [], IfOk, IfErr, OnOk, IsTrue};
ghost use Rattle.ae_rules.specs.Derivations.{AreAllowed, Derives};
ghost use Rattle.ae_num.specs.Forms.{IfWide};
ghost use Rattle.ae_calc.specs.Inner.LastLine.{EndsEmpty};
ghost use Rattle.ae_calc.specs.Reached.{Fit, FirstWide, ProofReaches};

use crate::clause_lines::{allowed, conclusion};
use ae_core::problems::Problem;
use ae_core::proofs::{ClauseLine, Proof};
use ae_num::numbers::NumFail;
use std::alloc::{AllocError, Global};

/// Whether each clause line is allowed after those before it.
#[tactic(auto, using(crate::proofs::AllowedLines::clause_lines_stop))]
pub fn are_allowed(
    alloc: Global,
    problem: &Problem,
    goal: usize,
    lines: &[ClauseLine],
) -> Result<bool, NumFail>
    ensures exact { IfOk result (λ b. IsTrue b ↔ AreAllowed problem.now goal [] lines.now) }
    ensures fits { OnOk result (Fit (ProofReaches problem.now goal [] lines.now)) }
    ensures wide { IfErr result (λ fail. IfWide fail (FirstWide (ProofReaches problem.now goal [] lines.now))) }
{
    for i in 0..lines.len() {
        if !allowed(alloc, problem, goal, &lines[..i], &lines[i])? {
            return Ok(false);
        }
    }
    Ok(true)
}

/// Whether the last line states the empty clause.
#[tactic(auto, using(crate::proofs::AllowedLines::last_of_read))]
pub fn ends_empty(
    alloc: Global,
    problem: &Problem,
    goal: usize,
    lines: &[ClauseLine],
) -> Result<bool, AllocError>
    ensures { IfOk result (λ b. IsTrue b ↔ EndsEmpty problem.now goal lines.now) }
{
    if lines.is_empty() {
        return Ok(false);
    }
    match conclusion(alloc, problem, goal, &lines[lines.len() - 1])? {
        None => Ok(false),
        Some(clause) => Ok(clause.is_empty()),
    }
}

/// Whether a proof derives the goal at place `goal` among the items of a problem: each line is allowed after those before it, and the last one states the empty clause.
///
/// `Wide` comes exactly where a product or sum leaves the limits that a line states before which all are allowed, with the first such pair.
pub fn derives(
    alloc: Global,
    problem: &Problem,
    goal: usize,
    proof: &Proof,
) -> Result<bool, NumFail>
    ensures exact { IfOk result (λ b. IsTrue b ↔ Derives problem.now goal proof.now) }
    ensures fits { OnOk result (Fit (ProofReaches problem.now goal [] proof.now.lines)) }
    ensures wide { IfErr result (λ fail. IfWide fail (FirstWide (ProofReaches problem.now goal [] proof.now.lines))) }
{
    let lines = proof.lines.as_slice();
    if !are_allowed(alloc, problem, goal, lines)? {
        return Ok(false);
    }
    Ok(ends_empty(alloc, problem, goal, lines)?)
}
