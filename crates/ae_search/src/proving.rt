//! The answer to one goal.
ghost use Rattle.std.specs.Prelude.{◌<◌, IfOk};
ghost use Rattle.ae_core.specs.Signatures.{IsLawfulProblem};
ghost use Rattle.ae_reach.specs.Reach.{IsInReach};
ghost use Rattle.ae_search.specs.Promises.{IsRightAnswer};
ghost use Rattle.ae_writable.specs.Numbers.{HasLowestNumerals};
ghost use Rattle.ae_writable.specs.Writable.{IsWritable};

use crate::ending::answer_from;
use ae_choice_clauses::add_choices;
use ae_core::problems::Problem;
use ae_first_clauses::begin;
use ae_goal_search::named_store;
use ae_journal::answers::Answer;
use ae_search_options::limits::Limits;
use ae_search_options::picks::Picks;
use std::alloc::{AllocError, Global};

/// Answers the goal at a place among the items of a problem, by the picks of one of three ways, with at most so many counted lines: a proof of it, a
/// saturated state, a journal with as many counted lines as were allowed, or one with a step that leaves the limits of numbers. Where the problem's
/// numerals are in lowest terms, the answer has a text. `Err` where there is no memory.
pub fn prove(
    alloc: Global,
    problem: &Problem,
    goal: usize,
    picks: &Picks,
    which: usize,
    limits: &Limits,
) -> Result<Answer, AllocError>
    requires lawful { IsLawfulProblem problem.now }
    requires reach { IsInReach problem.now goal }
    requires which { which < 3 }
    ensures right { IfOk result (IsRightAnswer problem.now goal limits.now) }
    ensures written { HasLowestNumerals problem.now → IfOk result (IsWritable problem.now.signature) }
{
    let mut first = begin(alloc, problem, goal)?;
    let mut store = named_store(alloc, &problem.signature, first.clauses.as_slice())?;
    add_choices(alloc, &problem.signature, &mut store, &mut first)?;
    let _names = store.len();
    answer_from(
        alloc,
        problem,
        goal,
        &store,
        first,
        &picks.decide[which],
        limits,
    )
}
