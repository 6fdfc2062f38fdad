//! A search: the solver runs, and then turn follows turn.
ghost use Rattle.std.specs.Prelude.{◌≡◌};
ghost use Rattle.ae_between_rounds.specs.Between.{IsBetweenRounds};
ghost use Rattle.ae_core.specs.Signatures.{IsLawfulProblem};
ghost use Rattle.ae_ordered_rounds.specs.Orders.{AreOrdersOf};
ghost use Rattle.ae_rounds.specs.Ended.{HasEnded};

use crate::progress::End;
use crate::solving::run_solver;
use crate::turns::run_turns;
use ae_between_rounds::search::{Search, Task};
use ae_ordered_rounds::laws::orders_stay;
use ae_ordered_rounds::orders::Orders;
use ae_sat::run::SatEnd;
use ae_theory::theory::Fail;

/// A run of the solver, and then turns, until the clauses are refuted, or nothing is left to do.
///
/// A turn notes a counted line, or it opens blocks, so that fewer quantifiers are left, or it adds the order of two numbers, so that no more quantifiers are left
/// and fewer orders are open. So no turns follow each other without end.
pub fn run_rounds(task: Task<'_>, search: &mut Search, orders: &mut Orders) -> Result<End, Fail>
    requires lawful { IsLawfulProblem task.problem.now }
    requires between { IsBetweenRounds task.problem.now task.goal task.generations search.old }
    requires limit { search.old.journal.limit ≡ task.steps }
    requires orders { AreOrdersOf task.problem.now task.goal search.old orders.old }
    ensures ended { HasEnded task.entry.problem.now task.entry.goal task.entry.generations search.new result }
    ensures limit { search.new.journal.limit ≡ search.old.journal.limit }
{
    orders_stay();
    match run_solver(task, search)? {
        SatEnd::Refuted => Ok(End::Refuted),
        SatEnd::Open => run_turns(task, search, orders),
    }
}
