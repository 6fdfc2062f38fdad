//! Which of the orders of a tight sum comes in next.
ghost use Rattle.std.specs.Prelude.{◌≡◌, true, IfOk, IfSome, MatchBool};
ghost use Rattle.std.specs.List.{AllByRecursion};
ghost use Rattle.ae_core.specs.declared.formulas.Formula.{Le, Lt};
ghost use Rattle.ae_order_counts.specs.Counts.{IsOrderOpen};
ghost use Rattle.ae_ordered_rounds.specs.Inner.Orderable.{IsFineRow, IsTrueInequality};
ghost use Rattle.ae_propagation.specs.Settled.{Holds};
ghost use Rattle.ae_rules.specs.Clauses as spec;

use crate::choosing::{is_below, is_ordered};
use crate::orders::Orders;
use ae_core::copies::copy_term;
use ae_core::formulas::{Formula, Lit};
use ae_core::lists::{Boxed, List};
use ae_core::terms::Term;
use ae_explain::Trail;
use ae_inequalities::rows::Row;
use ae_propagation::settle::is_true;
use ae_store::store::Store;
use ae_tight_sides::sides::{Sides, tight_sides};
use std::alloc::{AllocError, Global};

/// The sides of all rows of a tight sum that have some.
pub(crate) fn all_sides(
    alloc: Global,
    store: &Store,
    rows: &[Row],
) -> Result<List<Sides>, AllocError>
    requires fine { AllByRecursion (IsFineRow store.now) rows.now }
{
    let mut all = List::new(alloc);
    for row in rows {
        let found = tight_sides(alloc, store, row)?;
        match found {
            None => {}
            Some(both) => all.push(both)?,
        }
    }
    Ok(all)
}

/// That one number isn't below another.
fn not_below(alloc: Global, left: &Term, right: &Term) -> Result<Boxed<Lit>, AllocError>
    ensures { IfOk result (λ l. l ≡ spec.is_false (Lt left.now right.now)) }
{
    Boxed::new(
        alloc,
        Lit {
            positive: false,
            formula: Formula::Lt {
                left: copy_term(alloc, left)?,
                right: copy_term(alloc, right)?,
            },
        },
    )
}

/// That one number is at most another.
fn at_most(alloc: Global, left: &Term, right: &Term) -> Result<Boxed<Lit>, AllocError>
    ensures { IfOk result (λ l. l ≡ spec.is_true (Le left.now right.now)) }
{
    Boxed::new(
        alloc,
        Lit {
            positive: true,
            formula: Formula::Le {
                left: copy_term(alloc, left)?,
                right: copy_term(alloc, right)?,
            },
        },
    )
}

/// Whether a trail denies that one number is below another.
fn is_denied(alloc: Global, trail: &Trail, left: &Term, right: &Term) -> Result<bool, AllocError>
    ensures { IfOk result (λ said. MatchBool said (Holds trail.now.assigned (spec.is_false (Lt left.now right.now))) (¬ Holds trail.now.assigned (spec.is_false (Lt left.now right.now)))) }
{
    let literal = not_below(alloc, left, right)?;
    Ok(is_true(trail, literal.get()))
}

/// Whether a trail says that one number is at most another.
fn is_said(alloc: Global, trail: &Trail, left: &Term, right: &Term) -> Result<bool, AllocError>
    ensures { IfOk result (λ said. MatchBool said (Holds trail.now.assigned (spec.is_true (Le left.now right.now))) (¬ Holds trail.now.assigned (spec.is_true (Le left.now right.now)))) }
{
    let literal = at_most(alloc, left, right)?;
    Ok(is_true(trail, literal.get()))
}

/// Whether a trail says of two numbers that the one isn't above the other, by one of the two literals that do.
fn is_weak(alloc: Global, trail: &Trail, both: &Sides) -> Result<bool, AllocError>
    ensures { IfOk result (λ said. said ≡ true → IsTrueInequality trail.now.assigned both.now) }
{
    let denied = is_denied(alloc, trail, &both.right, &both.left)?;
    if denied {
        return Ok(true);
    }
    is_said(alloc, trail, &both.left, &both.right)
}

/// Two numbers, by copies, if a trail doesn't have their order.
pub(crate) fn open_copies(
    alloc: Global,
    trail: &Trail,
    left: &Term,
    right: &Term,
) -> Result<Option<Sides>, AllocError>
    ensures { IfOk result (λ found. IfSome found (λ both. (both ≡ record { left = left.now; right = right.now }) × IsOrderOpen trail.now.assigned both.left both.right)) }
{
    let ordered = is_ordered(alloc, trail, left, right)?;
    if ordered {
        return Ok(None);
    }
    let one = copy_term(alloc, left)?;
    let other = copy_term(alloc, right)?;
    Ok(Some(Sides {
        left: one,
        right: other,
    }))
}

/// Two sides, by copies, if a trail says that the one isn't above the other and doesn't have their order.
fn if_pending(alloc: Global, trail: &Trail, both: &Sides) -> Result<Option<Sides>, AllocError>
    ensures { IfOk result (λ found. IfSome found (λ copy. IsTrueInequality trail.now.assigned copy × IsOrderOpen trail.now.assigned copy.left copy.right)) }
{
    let weak = is_weak(alloc, trail, both)?;
    if weak {
        return open_copies(alloc, trail, &both.left, &both.right);
    }
    Ok(None)
}

/// The first such sides.
fn first_pending(alloc: Global, trail: &Trail, sides: &[Sides]) -> Result<Option<Sides>, AllocError>
    ensures { IfOk result (λ found. IfSome found (λ both. IsTrueInequality trail.now.assigned both × IsOrderOpen trail.now.assigned both.left both.right)) }
{
    for both in sides {
        let found = if_pending(alloc, trail, both)?;
        match found {
            None => {}
            Some(copy) => return Ok(Some(copy)),
        }
    }
    Ok(None)
}

/// Of the sides that are remembered of a tight sum the first ones of which a trail says that the one isn't above the other, and whose order it doesn't have.
pub(crate) fn next_pending(
    alloc: Global,
    trail: &Trail,
    orders: &Orders,
) -> Result<Option<Sides>, AllocError>
    ensures { IfOk result (λ found. IfSome found (λ both. IsTrueInequality trail.now.assigned both × IsOrderOpen trail.now.assigned both.left both.right)) }
{
    match &orders.tight {
        None => Ok(None),
        Some(sides) => first_pending(alloc, trail, sides.as_slice()),
    }
}

/// Whether a trail says of two sides which is below the other.
fn is_strict(alloc: Global, trail: &Trail, both: &Sides) -> Result<bool, AllocError> {
    let rising = is_below(alloc, trail, &both.left, &both.right)?;
    if rising {
        return Ok(true);
    }
    is_below(alloc, trail, &both.right, &both.left)
}

/// Whether it says so of some of them.
fn any_strict(alloc: Global, trail: &Trail, sides: &[Sides]) -> Result<bool, AllocError> {
    for both in sides {
        let strict = is_strict(alloc, trail, both)?;
        if strict {
            return Ok(true);
        }
    }
    Ok(false)
}

/// Whether a trail says of some of the sides that are remembered which is below the other.
pub(crate) fn some_strict(
    alloc: Global,
    trail: &Trail,
    orders: &Orders,
) -> Result<bool, AllocError> {
    match &orders.tight {
        None => Ok(false),
        Some(sides) => any_strict(alloc, trail, sides.as_slice()),
    }
}
