//! The answer to one goal.
ghost use Rattle.std.specs.Prelude.{◌≡◌, ◌<◌, Some, IfOk};
ghost use Rattle.ae_core.specs.Signatures.{IsLawfulProblem};
ghost use Rattle.ae_core.specs.declared.formulas.Formula.{Formula as FormulaValue};
ghost use Rattle.ae_journal.specs.Answers.{IsAnswer};
ghost use Rattle.ae_rules.specs.Derivations.{goal_body};
ghost use Rattle.ae_writable.specs.Numbers.{HasLowestNumerals};
ghost use Rattle.ae_writable.specs.Writable.{IsWritable};

use crate::answering::answer_of;
use crate::rounds::run_rounds;
use ae_between_rounds::search::Task;
use ae_core::problems::Problem;
use ae_first_round::begin;
use ae_journal::answers::Answer;
use ae_ordered_rounds::laws::orders_begin;
use ae_ordered_rounds::orders::Orders;
use ae_search_options::limits::Limits;
use ae_search_options::picks::Picks;
use std::alloc::{AllocError, Global};

/// Answers the goal at a place among the items of a problem, by the picks of one of three ways, with at most so many counted lines and matches among terms of
/// generations below a bound: a proof of it, a saturated state, a journal with as many counted lines as were allowed, or one with a step that leaves the limits
/// of numbers. Where the problem's numerals are in lowest terms, the answer has a text. `Err` where there is no memory.
pub fn prove(
    alloc: Global,
    problem: &Problem,
    goal: usize,
    picks: &Picks,
    which: usize,
    limits: &Limits,
) -> Result<Answer, AllocError>
    requires lawful { IsLawfulProblem problem.now }
    requires goal { (f : FormulaValue) × (goal_body problem.now goal ≡ Some f) }
    requires which { which < 3 }
    ensures answer { IfOk result (IsAnswer problem.now goal limits.now.steps limits.now.generations) }
    ensures written { HasLowestNumerals problem.now → IfOk result (IsWritable problem.now.signature) }
{
    let task = Task {
        alloc,
        problem,
        goal,
        steps: limits.steps,
        decide: &picks.decide[which],
        rank: &picks.rank[which],
        generations: limits.generations,
    };
    let mut search = begin(task)?;
    orders_begin();
    let mut orders = Orders::new();
    let end = run_rounds(task, &mut search, &mut orders);
    let answer = answer_of(task, &mut search, end);
    drop(orders);
    drop(search);
    answer
}
