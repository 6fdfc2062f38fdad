//! Which two numbers' order comes in.
ghost use Rattle.std.specs.Prelude.{◌≡◌, None, IfOk, IfSome, MatchBool, MatchOption};
ghost use Rattle.std.specs.List.{AllByRecursion, Contains};
ghost use Rattle.ae_core.specs.declared.formulas.Formula.{Eq, Lt};
ghost use Rattle.ae_inequalities.specs.declared.rows.Row.{Row as RowValue};
ghost use Rattle.ae_journal.specs.States.{inequality};
ghost use Rattle.ae_order_counts.specs.Counts.{IsOrderOpen};
ghost use Rattle.ae_ordered_rounds.specs.Inner.Orderable.{HasInequality, HasNoInequality, IsFineRow, IsInequality, IsTrueInequality};
ghost use Rattle.ae_propagation.specs.Settled.{Holds};
ghost use Rattle.ae_rules.specs.Clauses as spec;
ghost use Rattle.ae_theory.specs.Names.{terms_in};
ghost use Rattle.ae_tight_sides.specs.Sides.{AreSidesOf};

use ae_core::copies::copy_term;
use ae_core::formulas::{Formula, Lit};
use ae_core::lists::Boxed;
use ae_core::terms::Term;
use ae_explain::Trail;
use ae_inequalities::rows::Row;
use ae_propagation::settle::is_true;
use ae_solved_orders::sides;
use ae_store::store::Store;
use ae_tight_sides::sides::{Sides, tight_sides};
use ae_unordered::pairs::below;
use std::alloc::{AllocError, Global};

/// Whether an inequality is true in a trail.
pub(crate) fn has_inequality(trail: &Trail) -> bool
    ensures { MatchBool result (HasInequality trail.now.assigned) (HasNoInequality trail.now.assigned) }
{
    for place in 0..trail.len() {
        match sides(trail.lit_at(place)) {
            None => {}
            Some(_found) => return true,
        }
    }
    false
}

/// That two numbers are equal.
fn equal(alloc: Global, left: &Term, right: &Term) -> Result<Boxed<Lit>, AllocError>
    ensures { IfOk result (λ l. l ≡ spec.is_true (Eq left.now right.now)) }
{
    Boxed::new(
        alloc,
        Lit {
            positive: true,
            formula: Formula::Eq {
                left: copy_term(alloc, left)?,
                right: copy_term(alloc, right)?,
            },
        },
    )
}

/// Whether one number is below another by a trail.
pub(crate) fn is_below(
    alloc: Global,
    trail: &Trail,
    left: &Term,
    right: &Term,
) -> Result<bool, AllocError>
    ensures { IfOk result (λ said. MatchBool said (Holds trail.now.assigned (spec.is_true (Lt left.now right.now))) (¬ Holds trail.now.assigned (spec.is_true (Lt left.now right.now)))) }
{
    let literal = below(alloc, left, right)?;
    Ok(is_true(trail, literal.get()))
}

/// Whether two numbers are equal by a trail.
fn is_equal(alloc: Global, trail: &Trail, left: &Term, right: &Term) -> Result<bool, AllocError>
    ensures { IfOk result (λ said. MatchBool said (Holds trail.now.assigned (spec.is_true (Eq left.now right.now))) (¬ Holds trail.now.assigned (spec.is_true (Eq left.now right.now)))) }
{
    let literal = equal(alloc, left, right)?;
    Ok(is_true(trail, literal.get()))
}

/// Whether a trail says of two numbers that one is below the other, or that they are equal.
pub(crate) fn is_ordered(
    alloc: Global,
    trail: &Trail,
    left: &Term,
    right: &Term,
) -> Result<bool, AllocError>
    ensures { IfOk result (λ known. MatchBool known (¬ IsOrderOpen trail.now.assigned left.now right.now) (IsOrderOpen trail.now.assigned left.now right.now)) }
{
    let rising = is_below(alloc, trail, left, right)?;
    if rising {
        return Ok(true);
    }
    let falling = is_below(alloc, trail, right, left)?;
    if falling {
        return Ok(true);
    }
    let same = is_equal(alloc, trail, left, right)?;
    if same {
        return Ok(true);
    }
    let turned = is_equal(alloc, trail, right, left)?;
    Ok(turned)
}

/// These sides, if a trail doesn't have their order.
fn if_open(alloc: Global, trail: &Trail, both: Sides) -> Result<Option<Sides>, AllocError>
    ensures { IfOk result (λ found. IfSome found (λ open_ones. (open_ones ≡ both) × IsOrderOpen trail.now.assigned open_ones.left open_ones.right)) }
{
    let ordered = is_ordered(alloc, trail, &both.left, &both.right)?;
    if ordered {
        return Ok(None);
    }
    Ok(Some(both))
}

/// The sides of a literal, if it is an inequality.
fn inequality_sides(alloc: Global, literal: &Lit) -> Result<Option<Sides>, AllocError>
    ensures { IfOk result (λ found. MatchOption found (inequality literal.now ≡ None) (IsInequality literal.now)) }
{
    match sides(literal) {
        None => Ok(None),
        Some(found) => {
            let left = copy_term(alloc, found.lower)?;
            let right = copy_term(alloc, found.upper)?;
            Ok(Some(Sides { left, right }))
        }
    }
}

/// The sides of a literal, if it is an inequality and a trail doesn't have their order.
fn open_literal(alloc: Global, trail: &Trail, literal: &Lit) -> Result<Option<Sides>, AllocError>
    ensures { IfOk result (λ found. IfSome found (λ both. IsInequality literal.now both × IsOrderOpen trail.now.assigned both.left both.right)) }
{
    match inequality_sides(alloc, literal)? {
        None => Ok(None),
        Some(both) => if_open(alloc, trail, both),
    }
}

/// The sides of the first inequality that is true in a trail which doesn't have their order.
pub(crate) fn open_inequality(alloc: Global, trail: &Trail) -> Result<Option<Sides>, AllocError>
    ensures { IfOk result (λ found. IfSome found (λ both. IsTrueInequality trail.now.assigned both × IsOrderOpen trail.now.assigned both.left both.right)) }
{
    for place in 0..trail.len() {
        let found = open_literal(alloc, trail, trail.lit_at(place))?;
        match found {
            None => {}
            Some(both) => return Ok(Some(both)),
        }
    }
    Ok(None)
}

/// Whether a trail has the order of the sides of a row of a tight sum.
fn has_order(alloc: Global, store: &Store, trail: &Trail, row: &Row) -> Result<bool, AllocError>
    requires fine { IsFineRow store.now row.now }
{
    match tight_sides(alloc, store, row)? {
        None => Ok(false),
        Some(both) => is_ordered(alloc, trail, &both.left, &both.right),
    }
}

/// Whether it has that of one of the rows.
pub(crate) fn some_ordered(
    alloc: Global,
    store: &Store,
    trail: &Trail,
    rows: &[Row],
) -> Result<bool, AllocError>
    requires fine { AllByRecursion (IsFineRow store.now) rows.now }
{
    for row in rows {
        let ordered = has_order(alloc, store, trail, row)?;
        if ordered {
            return Ok(true);
        }
    }
    Ok(false)
}

/// The sides of a row of a tight sum, if a trail doesn't have their order.
fn open_sides(
    alloc: Global,
    store: &Store,
    trail: &Trail,
    row: &Row,
) -> Result<Option<Sides>, AllocError>
    requires fine { IsFineRow store.now row.now }
    ensures { IfOk result (λ found. IfSome found (λ both. AreSidesOf (terms_in store.now) row.now both × IsOrderOpen trail.now.assigned both.left both.right)) }
{
    match tight_sides(alloc, store, row)? {
        None => Ok(None),
        Some(both) => if_open(alloc, trail, both),
    }
}

/// The sides of the first of the rows whose order it doesn't have.
pub(crate) fn unordered_sides(
    alloc: Global,
    store: &Store,
    trail: &Trail,
    rows: &[Row],
) -> Result<Option<Sides>, AllocError>
    requires fine { AllByRecursion (IsFineRow store.now) rows.now }
    ensures { IfOk result (λ found. IfSome found (λ both. ((row : RowValue) × Contains rows.now row × AreSidesOf (terms_in store.now) row both) × IsOrderOpen trail.now.assigned both.left both.right)) }
{
    for row in rows {
        let found = open_sides(alloc, store, trail, row)?;
        match found {
            None => {}
            Some(both) => return Ok(Some(both)),
        }
    }
    Ok(None)
}
