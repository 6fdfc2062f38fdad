//! The turns of a search: a step, and a run of the solver behind it.
ghost use Rattle.std.specs.Prelude.{◌≡◌, Ok};
ghost use Rattle.ae_between_rounds.specs.Between.{IsBetweenRounds};
ghost use Rattle.ae_between_rounds.specs.declared.search.Search.{Search as SearchValue};
ghost use Rattle.ae_core.specs.Signatures.{IsLawfulProblem};
ghost use Rattle.ae_journal.specs.Journals.{counted_in};
ghost use Rattle.ae_ordered_rounds.specs.declared.orders.Orders.{Orders as KnownOrders};
ghost use Rattle.ae_rounds.specs.Ended.{HasEnded};
ghost use Rattle.ae_rounds.specs.Turns.{HasCounted, HasGoneOn, HasStepped, HasTurned, IsBetweenTurns};
ghost use Rattle.ae_rounds.specs.declared.progress.Progress.TheVariants as progress_as;

use crate::progress::{Added, End, Progress};
use crate::solving::run_solver;
use crate::steps::{added_since, step};
use ae_between_rounds::search::{Search, Task};
use ae_ordered_rounds::laws::orders_stay;
use ae_ordered_rounds::orders::Orders;
use ae_sat::run::SatEnd;
use ae_theory::theory::Fail;

/// The solver runs on what was added since so many lines were counted.
fn settle(
    task: Task<'_>,
    search: &mut Search,
    orders: &Orders,
    before: usize,
    added: Added,
) -> Result<Progress, Fail>
    requires between { IsBetweenRounds task.problem.now task.goal task.generations search.old }
    ensures turned { (first : SearchValue) (known : KnownOrders) → IsBetweenTurns task.entry.problem.now task.entry.goal task.entry.generations first known → before ≡ counted_in first.journal.lines →
        HasStepped task.entry.problem.now task.entry.goal task.entry.generations first search.old orders.now (Ok (progress_as.Added added)) →
        HasTurned task.entry.problem.now task.entry.goal task.entry.generations first search.new orders.now result }
    ensures limit { search.new.journal.limit ≡ search.old.journal.limit }
{
    orders_stay();
    match run_solver(task, search)? {
        SatEnd::Refuted => Ok(Progress::Ended(End::Refuted)),
        SatEnd::Open => {
            let now = added_since(&search.journal, before, added);
            Ok(Progress::Added(now))
        }
    }
}

/// A turn: a step, and then a run of the solver. It ends the search, or a line more is counted, or, with as many counted lines, fewer quantifiers of blocks are left
/// to open, or no more quantifiers and fewer orders are open. `Err` where the journal is full, a number leaves its limits, or there is no memory.
pub fn turn(task: Task<'_>, search: &mut Search, orders: &mut Orders) -> Result<Progress, Fail>
    requires lawful { IsLawfulProblem task.problem.now }
    requires turns { IsBetweenTurns task.problem.now task.goal task.generations search.old orders.old }
    requires limit { search.old.journal.limit ≡ task.steps }
    ensures turned { HasTurned task.entry.problem.now task.entry.goal task.entry.generations search.old search.new orders.new result }
    ensures limit { search.new.journal.limit ≡ search.old.journal.limit }
{
    let before = search.journal.counted();
    match step(task, search, orders)? {
        Progress::Ended(end) => Ok(Progress::Ended(end)),
        Progress::Added(added) => settle(task, search, orders, before, added),
    }
}

/// Turns that add orders, until one counts a line or opens a block; `None` then. Each of them leaves fewer orders open.
fn turns_of_orders(
    task: Task<'_>,
    search: &mut Search,
    orders: &mut Orders,
) -> Result<Option<End>, Fail>
    requires lawful { IsLawfulProblem task.problem.now }
    requires turns { IsBetweenTurns task.problem.now task.goal task.generations search.old orders.old }
    requires limit { search.old.journal.limit ≡ task.steps }
    ensures gone_on { HasGoneOn task.entry.problem.now task.entry.goal task.entry.generations search.old search.new orders.new result }
    ensures limit { search.new.journal.limit ≡ search.old.journal.limit }
{
    'orders: loop {
        match turn(task, search, orders)? {
            Progress::Ended(end) => return Ok(Some(end)),
            Progress::Added(added) => match added {
                Added::Lines => return Ok(None),
                Added::Blocks => return Ok(None),
                Added::Order => {}
            },
        }
    }
}

/// Turns, until one counts a line; `None` then. Where one opens a block instead, fewer quantifiers are left.
fn turns_of_blocks(
    task: Task<'_>,
    search: &mut Search,
    orders: &mut Orders,
) -> Result<Option<End>, Fail>
    requires lawful { IsLawfulProblem task.problem.now }
    requires turns { IsBetweenTurns task.problem.now task.goal task.generations search.old orders.old }
    requires limit { search.old.journal.limit ≡ task.steps }
    ensures counted { HasCounted task.entry.problem.now task.entry.goal task.entry.generations search.old search.new orders.new result }
    ensures limit { search.new.journal.limit ≡ search.old.journal.limit }
{
    'openings: loop {
        let before = search.journal.counted();
        let ended = turns_of_orders(task, search, orders)?;
        match ended {
            Some(end) => return Ok(Some(end)),
            None => {
                if search.journal.counted() > before {
                    return Ok(None);
                }
            }
        }
    }
}

/// Turn after turn, until the clauses are refuted, or nothing is left to do. No more lines are counted than the journal's limit.
pub(crate) fn run_turns(
    task: Task<'_>,
    search: &mut Search,
    orders: &mut Orders,
) -> Result<End, Fail>
    requires lawful { IsLawfulProblem task.problem.now }
    requires turns { IsBetweenTurns task.problem.now task.goal task.generations search.old orders.old }
    requires limit { search.old.journal.limit ≡ task.steps }
    ensures ended { HasEnded task.entry.problem.now task.entry.goal task.entry.generations search.new result }
    ensures limit { search.new.journal.limit ≡ search.old.journal.limit }
{
    'counting: loop {
        let ended = turns_of_blocks(task, search, orders)?;
        match ended {
            Some(end) => return Ok(end),
            None => {
                let _counted = search.journal.counted();
            }
        }
    }
}
