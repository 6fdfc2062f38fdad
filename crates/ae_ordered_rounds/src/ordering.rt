//! A round of the inequalities.
ghost use Rattle.std.specs.Prelude.{◌<◌, ◌^◌, ◌≡◌, IfOk, IfSome};
ghost use Rattle.std.specs.List.{AllByRecursion};
ghost use Rattle.ae_between_rounds.specs.Between.{IsBetweenRounds};
ghost use Rattle.ae_between_rounds.specs.Finished.{IsOpenSearch, IsPointOf};
ghost use Rattle.ae_inequalities.specs.Points.{IsPointNumber};
ghost use Rattle.ae_opening.specs.Asking.{AllServed};
ghost use Rattle.ae_order_counts.specs.Counts.{IsOrderOpen};
ghost use Rattle.ae_ordered_rounds.specs.Comes.{HasOrdered};
ghost use Rattle.ae_ordered_rounds.specs.Inner.Orderable.{AreOrderableRows, HasInequality, IsFineRow, IsOrderable};
ghost use Rattle.ae_ordered_rounds.specs.Inner.Solving.{IsSolved};
ghost use Rattle.ae_ordered_rounds.specs.Orders.{AreOrdersOf};
ghost use Rattle.ae_ordered_rounds.specs.declared.orders.Orders.{Orders as KnownOrders};
ghost use Rattle.ae_solved_orders.specs.Passed.{AreOrdered};
ghost use Rattle.ae_strict_rows.specs.Found.{IsFoundIn};

use crate::choosing::{has_inequality, is_ordered, open_inequality, some_ordered, unordered_sides};
use crate::laws::orders_stay;
use crate::meeting::{first_denied, meetings, next_denied};
use crate::orders::Orders;
use crate::pending::{all_sides, next_pending, some_strict};
use ae_added_orders::add_order;
use ae_agreed_rows::laws::whole_rows_stand;
use ae_between_rounds::search::{Search, Task};
use ae_core::lists::List;
use ae_core::terms::Term;
use ae_inequalities::answer::Ineq;
use ae_inequalities::rows::Row;
use ae_journal::systems::PointAt;
use ae_kept_runs::laws::{learnt_lines_come_over, runs_keep_rounds};
use ae_opaque_numbers::laws::opaque_numbers_are_leaves;
use ae_row_sides::laws::{sides_are_kept, sides_are_ordered, sides_are_whole};
use ae_searching::contradictions::learn_from;
use ae_searching::standing::trail_stands;
use ae_solved_orders::{Solved, solve_orders};
use ae_strict_rows::{long_strict_contradiction, strict_contradiction};
use ae_theory::theory::{Explained, Fail};
use ae_tight_sides::sides::Sides;
use ae_unordered::pairs::next_unordered;
use std::alloc::AllocError;

/// What a round comes to.
#[derive(Drop)]
pub enum Ordered {
    /// The lines end with the empty clause.
    Refuted,
    /// A line came in, and the search goes on.
    Added,
    /// The point satisfies the inequalities.
    Point(List<PointAt>),
}

/// A name of a point has 64 bits.
fn name_fits(at: &PointAt)
    ensures { at.now.name < 2 ^ 64 }
{
    let _name = at.name;
}

/// So do all names of it.
fn names_fit(made: &[PointAt])
    ensures { AllByRecursion (λ at. at.name < 2 ^ 64) made.now }
{
    for at in made {
        name_fits(at);
    }
}

/// The order of two numbers comes in, which the trail doesn't have.
fn add_sides(
    task: Task<'_>,
    search: &mut Search,
    left: &Term,
    right: &Term,
) -> Result<Ordered, Fail>
    requires between { IsBetweenRounds task.problem.now task.goal task.generations search.old }
    requires orderable { IsOrderable task.problem.now task.goal search.old left.now right.now }
    requires order_open { IsOrderOpen search.old.solver.propagation.trail left.now right.now }
    ensures comes { (k : KnownOrders) → AreOrdersOf task.entry.problem.now task.entry.goal search.old k → HasOrdered task.entry.problem.now task.entry.goal task.entry.generations search.old search.new k result }
    ensures limit { search.new.journal.limit ≡ search.old.journal.limit }
{
    orders_stay();
    match add_order(task, search, left, right) {
        Ok(()) => Ok(Ordered::Added),
        Err(failed) => Err(Fail::Memory(failed)),
    }
}

/// Learns from inequalities that can't hold together.
fn learn(task: Task<'_>, search: &mut Search, explained: Explained) -> Result<Ordered, Fail>
    requires between { IsBetweenRounds task.problem.now task.goal task.generations search.old }
    requires found { IsFoundIn search.old.store search.old.solver.propagation.trail explained }
    ensures comes { (k : KnownOrders) → AreOrdersOf task.entry.problem.now task.entry.goal search.old k → HasOrdered task.entry.problem.now task.entry.goal task.entry.generations search.old search.new k result }
    ensures limit { search.new.journal.limit ≡ search.old.journal.limit }
{
    runs_keep_rounds();
    learnt_lines_come_over();
    orders_stay();
    let Explained { block, tags: _tags } = explained;
    match learn_from(
        &mut search.solver,
        &search.store,
        &mut search.journal,
        &mut search.lines,
        block,
    ) {
        Ok(refuted) => {
            if refuted {
                Ok(Ordered::Refuted)
            } else {
                Ok(Ordered::Added)
            }
        }
        Err(fail) => Err(fail),
    }
}

/// A contradiction of the strict ones of the inequalities, with at most as many combinations as lines are counted.
fn short_strict_found(task: Task<'_>, search: &Search) -> Result<Option<Explained>, AllocError>
    requires between { IsBetweenRounds task.problem.now task.goal task.generations search.now }
    requires is_open { IsOpenSearch search.now }
    ensures { IfOk result (λ found. IfSome found (IsFoundIn search.now.store search.now.solver.propagation.trail)) }
{
    opaque_numbers_are_leaves();
    let limit = search.journal.counted();
    strict_contradiction(
        task.alloc,
        &search.store,
        search.solver.theory(),
        search.solver.trail(),
        limit,
    )
}

/// A contradiction of the strict ones of the inequalities, where the order of one of the rows of a tight sum is in the trail.
fn strict_found(
    task: Task<'_>,
    search: &Search,
    rows: &[Row],
) -> Result<Option<Explained>, AllocError>
    requires between { IsBetweenRounds task.problem.now task.goal task.generations search.now }
    requires is_open { IsOpenSearch search.now }
    requires fine { AllByRecursion (IsFineRow search.now.store) rows.now }
    ensures { IfOk result (λ found. IfSome found (IsFoundIn search.now.store search.now.solver.propagation.trail)) }
{
    let ordered = some_ordered(task.alloc, &search.store, search.solver.trail(), rows)?;
    if !ordered {
        return Ok(None);
    }
    short_strict_found(task, search)
}

/// A contradiction of the strict ones of the inequalities, where one of two sides that are remembered is below the other by the trail.
fn remembered_strict_found(
    task: Task<'_>,
    search: &Search,
    orders: &Orders,
) -> Result<Option<Explained>, AllocError>
    requires between { IsBetweenRounds task.problem.now task.goal task.generations search.now }
    requires is_open { IsOpenSearch search.now }
    ensures { IfOk result (λ found. IfSome found (IsFoundIn search.now.store search.now.solver.propagation.trail)) }
{
    let strict = some_strict(task.alloc, search.solver.trail(), orders)?;
    if !strict {
        return Ok(None);
    }
    short_strict_found(task, search)
}

/// A contradiction of the strict ones of the inequalities, however many combinations it takes.
fn long_strict_found(task: Task<'_>, search: &Search) -> Result<Option<Explained>, AllocError>
    requires between { IsBetweenRounds task.problem.now task.goal task.generations search.now }
    requires is_open { IsOpenSearch search.now }
    ensures { IfOk result (λ found. IfSome found (IsFoundIn search.now.store search.now.solver.propagation.trail)) }
{
    opaque_numbers_are_leaves();
    long_strict_contradiction(
        task.alloc,
        &search.store,
        search.solver.theory(),
        search.solver.trail(),
    )
}

/// The trail has each order that may be asked for: it is learnt from the contradiction of the strict ones of the inequalities. Where a number leaves its limits on
/// the way to it, the answer is that of a want of memory: the state licenses no other, and to go on would end there again.
fn learn_strict(task: Task<'_>, search: &mut Search) -> Result<Ordered, Fail>
    requires between { IsBetweenRounds task.problem.now task.goal task.generations search.old }
    requires is_open { IsOpenSearch search.old }
    ensures comes { (k : KnownOrders) → AreOrdersOf task.entry.problem.now task.entry.goal search.old k → HasOrdered task.entry.problem.now task.entry.goal task.entry.generations search.old search.new k result }
    ensures limit { search.new.journal.limit ≡ search.old.journal.limit }
{
    let found = long_strict_found(task, search)?;
    match found {
        None => Err(Fail::Memory(AllocError)),
        Some(explained) => learn(task, search, explained),
    }
}

/// The order of the sides of the first true inequality comes in whose order isn't in the trail.
fn add_inequality(task: Task<'_>, search: &mut Search) -> Result<Ordered, Fail>
    requires between { IsBetweenRounds task.problem.now task.goal task.generations search.old }
    requires is_open { IsOpenSearch search.old }
    ensures comes { (k : KnownOrders) → AreOrdersOf task.entry.problem.now task.entry.goal search.old k → HasOrdered task.entry.problem.now task.entry.goal task.entry.generations search.old search.new k result }
    ensures limit { search.new.journal.limit ≡ search.old.journal.limit }
{
    let found = open_inequality(task.alloc, search.solver.trail())?;
    match found {
        None => learn_strict(task, search),
        Some(both) => add_sides(task, search, &both.left, &both.right),
    }
}

/// The order of the first of the rows of a tight sum comes in whose order isn't in the trail; where there is none, that of an inequality.
fn add_unordered(task: Task<'_>, search: &mut Search, rows: &[Row]) -> Result<Ordered, Fail>
    requires between { IsBetweenRounds task.problem.now task.goal task.generations search.old }
    requires is_open { IsOpenSearch search.old }
    requires rows { AreOrderableRows task.problem.now task.goal search.old rows.now }
    ensures comes { (k : KnownOrders) → AreOrdersOf task.entry.problem.now task.entry.goal search.old k → HasOrdered task.entry.problem.now task.entry.goal task.entry.generations search.old search.new k result }
    ensures limit { search.new.journal.limit ≡ search.old.journal.limit }
{
    let found = unordered_sides(task.alloc, &search.store, search.solver.trail(), rows)?;
    match found {
        None => add_inequality(task, search),
        Some(both) => add_sides(task, search, &both.left, &both.right),
    }
}

/// Rows hold with equality alone.
fn go_on_tight(task: Task<'_>, search: &mut Search, rows: &[Row]) -> Result<Ordered, Fail>
    requires between { IsBetweenRounds task.problem.now task.goal task.generations search.old }
    requires is_open { IsOpenSearch search.old }
    requires rows { AreOrderableRows task.problem.now task.goal search.old rows.now }
    ensures comes { (k : KnownOrders) → AreOrdersOf task.entry.problem.now task.entry.goal search.old k → HasOrdered task.entry.problem.now task.entry.goal task.entry.generations search.old search.new k result }
    ensures limit { search.new.journal.limit ≡ search.old.journal.limit }
{
    let found = strict_found(task, search, rows)?;
    match found {
        None => add_unordered(task, search, rows),
        Some(explained) => learn(task, search, explained),
    }
}

/// Rows hold with equality alone: their sides are remembered for the rounds that follow.
fn remember_tight(
    task: Task<'_>,
    search: &mut Search,
    orders: &mut Orders,
    rows: &[Row],
) -> Result<Ordered, Fail>
    requires between { IsBetweenRounds task.problem.now task.goal task.generations search.old }
    requires is_open { IsOpenSearch search.old }
    requires rows { AreOrderableRows task.problem.now task.goal search.old rows.now }
    requires orders { AreOrdersOf task.problem.now task.goal search.old orders.old }
    ensures comes { HasOrdered task.entry.problem.now task.entry.goal task.entry.generations search.old search.new orders.new result }
    ensures limit { search.new.journal.limit ≡ search.old.journal.limit }
{
    let sides = all_sides(task.alloc, &search.store, rows)?;
    orders.remember(sides);
    go_on_tight(task, search, rows)
}

/// There is a point, and numbers that meet at it. Their orders come in one after the other, those that are still wanted; where none is, the point is the answer.
fn point_or_met(
    task: Task<'_>,
    search: &mut Search,
    orders: &mut Orders,
    made: List<PointAt>,
    met: List<Sides>,
) -> Result<Ordered, Fail>
    requires between { IsBetweenRounds task.problem.now task.goal task.generations search.old }
    requires is_open { IsOpenSearch search.old }
    requires inequal { HasInequality search.old.solver.propagation.trail }
    requires orders { AreOrdersOf task.problem.now task.goal search.old orders.old }
    requires point { IsPointOf search.old made }
    requires stand { AllByRecursion IsPointNumber made }
    ensures comes { HasOrdered task.entry.problem.now task.entry.goal task.entry.generations search.old search.new orders.new result }
    ensures limit { search.new.journal.limit ≡ search.old.journal.limit }
{
    let found = first_denied(
        task.alloc,
        &task.problem.signature,
        search.solver.trail(),
        met.as_slice(),
    )?;
    match found {
        None => {
            names_fit(made.as_slice());
            Ok(Ordered::Point(made))
        }
        Some(both) => {
            orders.remember(met);
            add_sides(task, search, &both.left, &both.right)
        }
    }
}

/// There is a point. Where two numbers are equal at it that are denied to be equal, and their order isn't in the trail, it comes in.
fn point_or_meeting(
    task: Task<'_>,
    search: &mut Search,
    orders: &mut Orders,
    made: List<PointAt>,
) -> Result<Ordered, Fail>
    requires between { IsBetweenRounds task.problem.now task.goal task.generations search.old }
    requires is_open { IsOpenSearch search.old }
    requires inequal { HasInequality search.old.solver.propagation.trail }
    requires orders { AreOrdersOf task.problem.now task.goal search.old orders.old }
    requires point { IsPointOf search.old made }
    requires stand { AllByRecursion IsPointNumber made }
    ensures comes { HasOrdered task.entry.problem.now task.entry.goal task.entry.generations search.old search.new orders.new result }
    ensures limit { search.new.journal.limit ≡ search.old.journal.limit }
{
    let met = meetings(task, search, made.as_slice())?;
    point_or_met(task, search, orders, made, met)
}

/// The rows of the inequalities are solved.
fn go_on_solved(
    task: Task<'_>,
    search: &mut Search,
    orders: &mut Orders,
    solved: Solved,
) -> Result<Ordered, Fail>
    requires between { IsBetweenRounds task.problem.now task.goal task.generations search.old }
    requires is_open { IsOpenSearch search.old }
    requires solved { IsSolved task.problem.now task.goal search.old solved }
    requires inequal { HasInequality search.old.solver.propagation.trail }
    ensures comes { HasOrdered task.entry.problem.now task.entry.goal task.entry.generations search.old search.new orders.new result }
    ensures limit { search.new.journal.limit ≡ search.old.journal.limit }
{
    trail_stands(&search.solver);
    whole_rows_stand();
    sides_are_kept();
    sides_are_ordered();
    sides_are_whole();
    let Solved { found, kept } = solved;
    orders.keep(kept);
    match found {
        Ineq::Point(made) => point_or_meeting(task, search, orders, made),
        Ineq::Contradiction(explained) => learn(task, search, explained),
        Ineq::Tight(rows) => remember_tight(task, search, orders, rows.as_slice()),
    }
}

/// There is an inequality, no order is left open, and no sides are remembered that are wanted.
fn solve_round(task: Task<'_>, search: &mut Search, orders: &mut Orders) -> Result<Ordered, Fail>
    requires between { IsBetweenRounds task.problem.now task.goal task.generations search.old }
    requires is_open { IsOpenSearch search.old }
    requires served { AllServed search.old.solver.propagation.trail search.old.blocks.opened }
    requires ordered { AreOrdered search.old.solver.propagation.trail }
    requires orders { AreOrdersOf task.problem.now task.goal search.old orders.old }
    requires inequal { HasInequality search.old.solver.propagation.trail }
    ensures comes { HasOrdered task.entry.problem.now task.entry.goal task.entry.generations search.old search.new orders.new result }
    ensures limit { search.new.journal.limit ≡ search.old.journal.limit }
{
    let kept = orders.take();
    match solve_orders(task, search, kept) {
        Ok(solved) => go_on_solved(task, search, orders, solved),
        Err(fail) => Err(fail),
    }
}

/// The order of the next two numbers comes in that are remembered and denied to be equal; where there are none any more, the rows are solved.
fn add_denied(task: Task<'_>, search: &mut Search, orders: &mut Orders) -> Result<Ordered, Fail>
    requires between { IsBetweenRounds task.problem.now task.goal task.generations search.old }
    requires is_open { IsOpenSearch search.old }
    requires served { AllServed search.old.solver.propagation.trail search.old.blocks.opened }
    requires ordered { AreOrdered search.old.solver.propagation.trail }
    requires orders { AreOrdersOf task.problem.now task.goal search.old orders.old }
    requires inequal { HasInequality search.old.solver.propagation.trail }
    ensures comes { HasOrdered task.entry.problem.now task.entry.goal task.entry.generations search.old search.new orders.new result }
    ensures limit { search.new.journal.limit ≡ search.old.journal.limit }
{
    let found = next_denied(
        task.alloc,
        &task.problem.signature,
        search.solver.trail(),
        orders,
    )?;
    match found {
        None => {
            orders.forget();
            solve_round(task, search, orders)
        }
        Some(both) => add_sides(task, search, &both.left, &both.right),
    }
}

/// The order of the next two sides comes in that are remembered, and of which the one isn't above the other; where there are none, that of numbers that are denied to be
/// equal.
fn add_pending(task: Task<'_>, search: &mut Search, orders: &mut Orders) -> Result<Ordered, Fail>
    requires between { IsBetweenRounds task.problem.now task.goal task.generations search.old }
    requires is_open { IsOpenSearch search.old }
    requires served { AllServed search.old.solver.propagation.trail search.old.blocks.opened }
    requires ordered { AreOrdered search.old.solver.propagation.trail }
    requires orders { AreOrdersOf task.problem.now task.goal search.old orders.old }
    requires inequal { HasInequality search.old.solver.propagation.trail }
    ensures comes { HasOrdered task.entry.problem.now task.entry.goal task.entry.generations search.old search.new orders.new result }
    ensures limit { search.new.journal.limit ≡ search.old.journal.limit }
{
    let found = next_pending(task.alloc, search.solver.trail(), orders)?;
    match found {
        None => add_denied(task, search, orders),
        Some(both) => add_sides(task, search, &both.left, &both.right),
    }
}

/// Sides are remembered: where one of two is below the other by the trail, it is learnt from a contradiction of the strict ones of the inequalities; else the next
/// order comes in.
fn pending_round(task: Task<'_>, search: &mut Search, orders: &mut Orders) -> Result<Ordered, Fail>
    requires between { IsBetweenRounds task.problem.now task.goal task.generations search.old }
    requires is_open { IsOpenSearch search.old }
    requires served { AllServed search.old.solver.propagation.trail search.old.blocks.opened }
    requires ordered { AreOrdered search.old.solver.propagation.trail }
    requires orders { AreOrdersOf task.problem.now task.goal search.old orders.old }
    requires inequal { HasInequality search.old.solver.propagation.trail }
    ensures comes { HasOrdered task.entry.problem.now task.entry.goal task.entry.generations search.old search.new orders.new result }
    ensures limit { search.new.journal.limit ≡ search.old.journal.limit }
{
    let found = remembered_strict_found(task, search, orders)?;
    match found {
        None => add_pending(task, search, orders),
        Some(explained) => learn(task, search, explained),
    }
}

/// There is an inequality, and no order is left open.
fn inequality_round(
    task: Task<'_>,
    search: &mut Search,
    orders: &mut Orders,
) -> Result<Ordered, Fail>
    requires between { IsBetweenRounds task.problem.now task.goal task.generations search.old }
    requires is_open { IsOpenSearch search.old }
    requires served { AllServed search.old.solver.propagation.trail search.old.blocks.opened }
    requires ordered { AreOrdered search.old.solver.propagation.trail }
    requires orders { AreOrdersOf task.problem.now task.goal search.old orders.old }
    requires inequal { HasInequality search.old.solver.propagation.trail }
    ensures comes { HasOrdered task.entry.problem.now task.entry.goal task.entry.generations search.old search.new orders.new result }
    ensures limit { search.new.journal.limit ≡ search.old.journal.limit }
{
    let pending = orders.tight.is_some();
    if pending {
        return pending_round(task, search, orders);
    }
    solve_round(task, search, orders)
}

/// No order is left open.
fn point_or_round(task: Task<'_>, search: &mut Search, orders: &mut Orders) -> Result<Ordered, Fail>
    requires between { IsBetweenRounds task.problem.now task.goal task.generations search.old }
    requires is_open { IsOpenSearch search.old }
    requires served { AllServed search.old.solver.propagation.trail search.old.blocks.opened }
    requires ordered { AreOrdered search.old.solver.propagation.trail }
    requires orders { AreOrdersOf task.problem.now task.goal search.old orders.old }
    ensures comes { HasOrdered task.entry.problem.now task.entry.goal task.entry.generations search.old search.new orders.new result }
    ensures limit { search.new.journal.limit ≡ search.old.journal.limit }
{
    let inequal = has_inequality(search.solver.trail());
    if inequal {
        return inequality_round(task, search, orders);
    }
    Ok(Ordered::Point(List::new(task.alloc)))
}

/// The order of two numbers comes in of which it is denied that they are equal, and that the one is below the other, and not said that the other is below the one. So
/// their order isn't in the trail; were it there, it would be learnt from the strict ones of the inequalities.
fn add_pair(task: Task<'_>, search: &mut Search, left: &Term, right: &Term) -> Result<Ordered, Fail>
    requires between { IsBetweenRounds task.problem.now task.goal task.generations search.old }
    requires is_open { IsOpenSearch search.old }
    requires orderable { IsOrderable task.problem.now task.goal search.old left.now right.now }
    ensures comes { (k : KnownOrders) → AreOrdersOf task.entry.problem.now task.entry.goal search.old k → HasOrdered task.entry.problem.now task.entry.goal task.entry.generations search.old search.new k result }
    ensures limit { search.new.journal.limit ≡ search.old.journal.limit }
{
    let ordered = is_ordered(task.alloc, search.solver.trail(), left, right)?;
    if ordered {
        return learn_strict(task, search);
    }
    add_sides(task, search, left, right)
}

/// A round of the inequalities, in a search that has nothing left to do and whose blocks are opened.
///
/// Where it is denied of two numbers that they are equal, and that the one is below the other, and not said that the other is below the one, their order comes in.
/// Else, where sides are remembered of rows that held with equality alone, or numbers that were equal at a point: where the trail says which of two of them is
/// below the other, it is learnt from a contradiction of the strict ones of the inequalities; without one, the order of the next of them comes in of which the one
/// isn't above the other by the trail, or which it denies to be equal, and whose order it doesn't have. Else the rows of all inequalities are solved. A contradiction
/// is learnt from. Of rows that hold with equality alone, the order of the first one comes in whose order isn't in the trail, or that of the first inequality whose
/// order isn't; first, where one of them is strict by the trail, it is learnt from the contradiction of the strict ones. At a point, the order of two numbers comes
/// in that are denied to be equal and are equal there, if it isn't in the trail. Where no inequality is true there is a point at once.
pub fn order_round(
    task: Task<'_>,
    search: &mut Search,
    orders: &mut Orders,
) -> Result<Ordered, Fail>
    requires between { IsBetweenRounds task.problem.now task.goal task.generations search.old }
    requires is_open { IsOpenSearch search.old }
    requires served { AllServed search.old.solver.propagation.trail search.old.blocks.opened }
    requires orders { AreOrdersOf task.problem.now task.goal search.old orders.old }
    ensures comes { HasOrdered task.entry.problem.now task.entry.goal task.entry.generations search.old search.new orders.new result }
    ensures limit { search.new.journal.limit ≡ search.old.journal.limit }
{
    let found = next_unordered(task.alloc, search.solver.trail())?;
    match found {
        None => point_or_round(task, search, orders),
        Some(pair) => add_pair(task, search, &pair.left, &pair.right),
    }
}
