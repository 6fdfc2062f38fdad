//! The answer to a goal.
ghost use Rattle.std.specs.Prelude.{◌≡◌, ◌<◌, IfOk, Some};
ghost use Rattle.ae_core.specs.Signatures.{IsLawfulProblem};
ghost use Rattle.ae_core.specs.declared.formulas.Formula.{Formula as FormulaValue};
ghost use Rattle.ae_reach.specs.Reach.{IsInReach};
ghost use Rattle.ae_rules.specs.Derivations.{goal_body};
ghost use Rattle.ae_search.specs.Promises.{IsRightAnswer};
ghost use Rattle.ae_writable.specs.Numbers.{HasLowestNumerals};
ghost use Rattle.ae_writable.specs.Writable.{IsWritable};

use ae_core::problems::Problem;
use ae_journal::answers::Answer;
use ae_reach_checks::is_in_reach;
use ae_search_options::limits::Limits;
use ae_search_options::picks::Picks;
use std::alloc::{AllocError, Global};

// The answer of a search in rounds to a goal that is out of the other search's reach.
fn answer_in_rounds(
    alloc: Global,
    problem: &Problem,
    goal: usize,
    picks: &Picks,
    which: usize,
    limits: &Limits,
) -> Result<Answer, AllocError>
    requires lawful { IsLawfulProblem problem.now }
    requires goal { (f : FormulaValue) × (goal_body problem.now goal ≡ Some f) }
    requires outside { ¬ IsInReach problem.now goal }
    requires which { which < 3 }
    ensures right { IfOk result (IsRightAnswer problem.now goal limits.now) }
    ensures written { HasLowestNumerals problem.now → IfOk result (IsWritable problem.now.signature) }
{
    ae_rounds::prove(alloc, problem, goal, picks, which, limits)
}

/// The answer to a goal, by the picks of one of three ways, with at most so many counted lines: where neither an inequality nor a quantifier but the goal's own
/// block stands in it, that of a search for ground proofs; else that of a search in rounds. `Err` where there is no memory.
pub fn goal_answer(
    alloc: Global,
    problem: &Problem,
    goal: usize,
    picks: &Picks,
    which: usize,
    limits: &Limits,
) -> Result<Answer, AllocError>
    requires lawful { IsLawfulProblem problem.now }
    requires goal { (f : FormulaValue) × (goal_body problem.now goal ≡ Some f) }
    requires which { which < 3 }
    ensures right { IfOk result (IsRightAnswer problem.now goal limits.now) }
    ensures written { HasLowestNumerals problem.now → IfOk result (IsWritable problem.now.signature) }
{
    let reached = is_in_reach(alloc, problem, goal)?;
    if reached {
        return ae_search::prove(alloc, problem, goal, picks, which, limits);
    }
    answer_in_rounds(alloc, problem, goal, picks, which, limits)
}
