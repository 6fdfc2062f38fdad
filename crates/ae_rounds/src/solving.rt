//! A run of the solver.
ghost use Rattle.std.specs.Prelude.{◌≡◌};
ghost use Rattle.ae_between_rounds.specs.Between.{IsBetweenRounds};
ghost use Rattle.ae_rounds.specs.Ended.{HasRun};

use ae_between_rounds::search::{Search, Task};
use ae_sat::run::SatEnd;
use ae_searching::running::run_on;
use ae_theory::theory::Fail;

/// Runs the solver until the lines end with the empty clause, or until nothing is left to do for it.
pub fn run_solver(task: Task<'_>, search: &mut Search) -> Result<SatEnd, Fail>
    requires between { IsBetweenRounds task.problem.now task.goal task.generations search.old }
    ensures run { HasRun task.entry.problem.now task.entry.goal task.entry.generations search.old search.new result }
    ensures limit { search.new.journal.limit ≡ search.old.journal.limit }
{
    match run_on(
        &mut search.solver,
        &search.store,
        &mut search.journal,
        task.decide,
        &mut search.lines,
    )? {
        SatEnd::Refuted => Ok(SatEnd::Refuted),
        SatEnd::Open => Ok(SatEnd::Open),
    }
}
