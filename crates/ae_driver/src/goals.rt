//! The goals of a problem, without its axioms.

ghost use Rattle.std.specs.Prelude.{◌≡◌, IfOk};
ghost use Rattle.ae_driver.specs.Checking as spec;

use ae_base::lists::List;
use ae_base::words::Word;
use ae_core::problems::{Item, Problem};
use std::alloc::{AllocError, Global};

/// A goal, by its place among the items of its problem, from 0, and its name.
#[derive(Drop)]
pub struct GoalPlace {
    pub place: usize,
    pub name: Word,
}

/// The goals of a problem, in order; `Err` where there is no memory for them.
pub fn goals_of(alloc: Global, problem: &Problem) -> Result<List<GoalPlace>, AllocError>
    ensures { IfOk result (λ goals. goals ≡ spec.goals_of problem.now) }
{
    let items = problem.items.as_slice();
    let mut goals = List::new(alloc);
    for place in 0..items.len() {
        if let Item::Goal { name, .. } = &items[place] {
            let name = name.copy(alloc)?;
            goals.push(GoalPlace { place, name })?;
        }
    }
    Ok(goals)
}

/// The names of goals, in order; `Err` where there is no memory for them.
pub fn names_of(alloc: Global, goals: &[GoalPlace]) -> Result<List<Word>, AllocError>
    ensures { IfOk result (λ names. names ≡ spec.names_of goals.now) }
{
    let mut names = List::new(alloc);
    for goal in goals {
        let name = goal.name.copy(alloc)?;
        names.push(name)?;
    }
    Ok(names)
}
