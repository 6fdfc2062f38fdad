//! What is done where nothing is left to do for the solver.
ghost use Rattle.std.specs.Prelude.{◌<◌, ◌≤◌, ◌≡◌};
ghost use Rattle.std.specs.List.{AllByRecursion};
ghost use Rattle.ae_between_rounds.specs.Between.{IsBetweenRounds};
ghost use Rattle.ae_between_rounds.specs.Finished.{IsOpenSearch, IsPointOf};
ghost use Rattle.ae_core.specs.Signatures.{IsLawfulProblem};
ghost use Rattle.ae_journal.specs.Journals.{counted_in};
ghost use Rattle.ae_opening.specs.Asking.{AllServed};
ghost use Rattle.ae_ordered_rounds.specs.Orders.{AreOrdersOf};
ghost use Rattle.ae_ordered_rounds.specs.declared.orders.Orders.{Orders as KnownOrders};
ghost use Rattle.ae_rounds.specs.Ended.{HasOpened};
ghost use Rattle.ae_rounds.specs.Turns.{HasFinished, HasStepped, IsBetweenTurns};
ghost use Rattle.ae_rounds.specs.declared.progress.Added.TheVariants as added_as;
ghost use Rattle.ae_stategrammar.specs.Points.{PointStands};

use crate::instantiating::instantiate;
use crate::progress::{Added, End, Progress};
use ae_between_rounds::search::{Search, Task};
use ae_core::lists::List;
use ae_journal::journal::Journal;
use ae_journal::systems::PointAt;
use ae_opened_blocks::open_blocks;
use ae_ordered_rounds::laws::orders_stay;
use ae_ordered_rounds::ordering::{Ordered, order_round};
use ae_ordered_rounds::orders::Orders;
use ae_theory::theory::Fail;

/// What was added, where lines may have been counted since there were so many.
pub(crate) fn added_since(journal: &Journal, before: usize, added: Added) -> Added
    ensures lines { before < counted_in journal.now.lines → result ≡ added_as.Lines }
    ensures same { counted_in journal.now.lines ≤ before → result ≡ added }
{
    if journal.counted() > before {
        return Added::Lines;
    }
    added
}

/// Opens the blocks that ask for terms; `false` where none does.
fn open_some(task: Task<'_>, search: &mut Search) -> Result<bool, Fail>
    requires between { IsBetweenRounds task.problem.now task.goal task.generations search.old }
    ensures opened { HasOpened task.entry.problem.now task.entry.goal task.entry.generations search.old search.new result }
    ensures limit { search.new.journal.limit ≡ search.old.journal.limit }
{
    if open_blocks(task, search)? {
        Ok(true)
    } else {
        Ok(false)
    }
}

/// Where no block asks for terms and the point satisfies the inequalities, instances are made.
fn finish(task: Task<'_>, search: &mut Search, point: List<PointAt>) -> Result<Progress, Fail>
    requires lawful { IsLawfulProblem task.problem.now }
    requires between { IsBetweenRounds task.problem.now task.goal task.generations search.old }
    requires limit { search.old.journal.limit ≡ task.steps }
    requires is_open { IsOpenSearch search.old }
    requires served { AllServed search.old.solver.propagation.trail search.old.blocks.opened }
    requires point { IsPointOf search.old point }
    requires written { AllByRecursion PointStands point }
    ensures finished { (known : KnownOrders) → AreOrdersOf task.entry.problem.now task.entry.goal search.old known →
        HasFinished task.entry.problem.now task.entry.goal task.entry.generations search.old search.new known result }
    ensures limit { search.new.journal.limit ≡ search.old.journal.limit }
{
    orders_stay();
    if instantiate(task, search)? {
        Ok(Progress::Added(Added::Lines))
    } else {
        Ok(Progress::Ended(End::Open(point)))
    }
}

/// A step: blocks are opened, or else a round of the inequalities is made, or else instances are.
pub(crate) fn step(
    task: Task<'_>,
    search: &mut Search,
    orders: &mut Orders,
) -> Result<Progress, Fail>
    requires lawful { IsLawfulProblem task.problem.now }
    requires turns { IsBetweenTurns task.problem.now task.goal task.generations search.old orders.old }
    requires limit { search.old.journal.limit ≡ task.steps }
    ensures stepped { HasStepped task.entry.problem.now task.entry.goal task.entry.generations search.old search.new orders.new result }
    ensures limit { search.new.journal.limit ≡ search.old.journal.limit }
{
    orders_stay();
    if open_some(task, search)? {
        return Ok(Progress::Added(Added::Blocks));
    }
    let before = search.journal.counted();
    match order_round(task, search, orders)? {
        Ordered::Refuted => Ok(Progress::Ended(End::Refuted)),
        Ordered::Added => {
            let added = added_since(&search.journal, before, Added::Order);
            Ok(Progress::Added(added))
        }
        Ordered::Point(point) => finish(task, search, point),
    }
}
