//! What is printed for an item of a problem.
ghost use Rattle.std.specs.Prelude.{◌<◌, ◌≤◌, length, IfOk};
ghost use Rattle.ae_core.specs.Signatures.{IsLawfulProblem};
ghost use Rattle.ae_printed.specs.ReadBack.{IsReadBack};
ghost use Rattle.ae_writable.specs.Numbers.{HasLowestNumerals};
ghost use Rattle.ae_goal_parts.specs.Parts.{IsPart, IsReadable};
ghost use Rattle.ae_goal_parts.specs.Inner.Items.{IsGoalNamed};
ghost use Rattle.ae_goal_parts.specs.Inner.Shown.{IsShown, MayBeShown};

use crate::answers::goal_answer;
use crate::found::found_part;
use crate::valid::valid_part;
use ae_core::problems::{Item, Problem};
use ae_core::words::Word;
use ae_journal::answers::Answer;
use ae_search_options::limits::Limits;
use ae_search_options::picks::Picks;
use std::alloc::{AllocError, Global};

/// What is printed for the item at a place of a problem: nothing for an axiom; for a goal the answer that is found by the picks of one of three ways, with
/// at most so many counted lines. It is always read back as a part of that goal, since the numerals of the problem are in lowest terms and the bound is one
/// that a text can name. `Err` where there is no memory for it, and nowhere else.
pub fn item_part(
    alloc: Global,
    problem: &Problem,
    place: usize,
    picks: &Picks,
    which: usize,
    limits: &Limits,
) -> Result<Vec<u8>, AllocError>
    requires lawful { IsLawfulProblem problem.now }
    requires lowest { HasLowestNumerals problem.now }
    requires least { 1 ≤ limits.now.steps }
    requires most { limits.now.steps ≤ 1000000 }
    requires place { place < length problem.now.items }
    requires which { which < 3 }
    ensures part { IfOk result (λ part. IsPart problem.now place limits.now part.items) }
    ensures read_back { IfOk result (λ part. IsReadable problem.now place part.items) }
{
    let items = problem.items.as_slice();
    match &items[place] {
        Item::Axiom { .. } => Ok(Vec::new(alloc)),
        Item::Goal { name, .. } => goal_part(alloc, problem, place, name, picks, which, limits),
    }
}

// What is printed for a goal.
fn goal_part(
    alloc: Global,
    problem: &Problem,
    goal: usize,
    name: &Word,
    picks: &Picks,
    which: usize,
    limits: &Limits,
) -> Result<Vec<u8>, AllocError>
    requires lawful { IsLawfulProblem problem.now }
    requires lowest { HasLowestNumerals problem.now }
    requires least { 1 ≤ limits.now.steps }
    requires most { limits.now.steps ≤ 1000000 }
    requires named { IsGoalNamed problem.now goal name.now }
    requires which { which < 3 }
    ensures part { IfOk result (λ part. IsPart problem.now goal limits.now part.items) }
    ensures read_back { IfOk result (λ part. IsReadBack problem.now goal part.items) }
{
    let answer = goal_answer(alloc, problem, goal, picks, which, limits)?;
    answer_part(alloc, problem, goal, name, &answer)
}

// What is printed for an answer.
fn answer_part(
    alloc: Global,
    problem: &Problem,
    goal: usize,
    name: &Word,
    answer: &Answer,
) -> Result<Vec<u8>, AllocError>
    requires lawful { IsLawfulProblem problem.now }
    requires named { IsGoalNamed problem.now goal name.now }
    requires may_be { MayBeShown problem.now goal answer.now }
    ensures shown { IfOk result (λ part. IsShown problem.now.signature name.now answer.now part.items) }
    ensures read_back { IfOk result (λ part. IsReadBack problem.now goal part.items) }
{
    match answer {
        Answer::Valid(proof) => valid_part(alloc, problem, goal, name, proof),
        Answer::Unknown(_) => found_part(alloc, problem, goal, name, answer),
        Answer::Steps(_) => found_part(alloc, problem, goal, name, answer),
        Answer::Number { .. } => found_part(alloc, problem, goal, name, answer),
    }
}
