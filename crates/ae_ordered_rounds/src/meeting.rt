//! Numbers that are denied to be equal, and are equal at a point.
ghost use Rattle.std.specs.Prelude.{◌≡◌, IfOk, IfSome, MatchBool};
ghost use Rattle.ae_core.specs.Sorts as sorts;
ghost use Rattle.ae_core.specs.declared.formulas.Formula.{Eq};
ghost use Rattle.ae_num.specs.Forms.{IsNormal};
ghost use Rattle.ae_num.specs.declared.forms.Value as value;
ghost use Rattle.ae_order_counts.specs.Counts.{IsOrderOpen};
ghost use Rattle.ae_ordered_rounds.specs.Inner.Meeting.{HasNormalForms, IsMeeting};
ghost use Rattle.ae_propagation.specs.Settled.{Holds};
ghost use Rattle.ae_rules.specs.Clauses as spec;
ghost use Rattle.ae_state.specs.Complete.{IsComplete};
ghost use Rattle.ae_state.specs.Fitting.{FitsStore};

use crate::orders::Orders;
use crate::pending::open_copies;
use ae_between_rounds::search::{Search, Task};
use ae_core::copies::copy_term;
use ae_core::formulas::{Formula, Lit};
use ae_core::lists::{Boxed, List};
use ae_core::problems::Signature;
use ae_core::sorts::{same_numeric, sort_of};
use ae_core::terms::Term;
use ae_decide::values::value_of;
use ae_explain::Trail;
use ae_journal::systems::{PointAt, System};
use ae_num::differences::difference;
use ae_num::forms::{Lin, Name, Value};
use ae_num::numbers::NumFail;
use ae_propagation::settle::is_true;
use ae_tight_sides::sides::Sides;
use ae_unordered::pairs::denied_sides;
use std::alloc::{AllocError, Global};

/// A fraction.
#[derive(Clone, Copy)]
struct Ratio {
    top: i128,
    bottom: i128,
}

/// The number of a name at a point; of one that the point doesn't have, 0.
fn number_at(point: &[PointAt], name: Name) -> Ratio {
    for at in point {
        if at.name == name {
            return Ratio {
                top: at.top,
                bottom: at.bottom,
            };
        }
    }
    Ratio { top: 0, bottom: 1 }
}

/// A sum with one more product, if it has room.
fn with_product(sum: Ratio, factor: i128, number: Ratio) -> Option<Ratio> {
    let before = sum.top.checked_mul(number.bottom)?;
    let product = factor.checked_mul(number.top)?.checked_mul(sum.bottom)?;
    let top = before.checked_add(product)?;
    let bottom = sum.bottom.checked_mul(number.bottom)?;
    Some(Ratio { top, bottom })
}

/// The sum of a form over 1 at a point, if it has room.
fn sum_at(form: &Lin, point: &[PointAt]) -> Option<Ratio> {
    let mut sum = Ratio {
        top: form.constant,
        bottom: 1,
    };
    for part in form.parts.as_slice() {
        let number = number_at(point, part.key);
        sum = with_product(sum, part.factor, number)?;
    }
    Some(sum)
}

/// Whether a form is seen to be 0 at a point.
fn is_zero_at(form: &Lin, point: &[PointAt]) -> bool {
    match sum_at(form, point) {
        None => false,
        Some(sum) => sum.top == 0,
    }
}

/// Whether two forms are seen to be equal at a point. Nothing licenses a number of their difference, so one that leaves the limits is passed over.
fn meet(alloc: Global, left: &Lin, right: &Lin, point: &[PointAt]) -> Result<bool, AllocError>
    requires left { IsNormal left.now }
    requires right { IsNormal right.now }
{
    match difference(alloc, left, right) {
        Ok(form) => Ok(is_zero_at(&form, point)),
        Err(NumFail::Wide(_wide)) => Ok(false),
        Err(NumFail::Memory(failed)) => Err(failed),
    }
}

/// The form of a value that is a number.
fn number_form<'a>(written: &'a Value) -> Option<&'a Lin>
    ensures { IfSome result (λ form. written.now ≡ value.Number form.now) }
{
    match written {
        Value::Number(form) => Some(form),
        _ => None,
    }
}

/// The form of the value of a term, if it is a number.
fn form_of<'a>(system: &'a System, term: &Term) -> Option<&'a Lin>
    requires normal { HasNormalForms system.now }
    ensures { IfSome result (λ form. IsNormal form.now) }
{
    match value_of(system, term) {
        None => None,
        Some(written) => number_form(written),
    }
}

/// Whether the number of a term is seen to be that of a form at a point.
fn meets(
    alloc: Global,
    system: &System,
    point: &[PointAt],
    form: &Lin,
    term: &Term,
) -> Result<bool, AllocError>
    requires normal { HasNormalForms system.now }
    requires form { IsNormal form.now }
{
    match form_of(system, term) {
        None => Ok(false),
        Some(other) => meet(alloc, form, other, point),
    }
}

/// Whether the numbers of two terms are seen to be equal at a point.
fn are_equal_at(
    alloc: Global,
    system: &System,
    point: &[PointAt],
    left: &Term,
    right: &Term,
) -> Result<bool, AllocError>
    requires normal { HasNormalForms system.now }
{
    match form_of(system, left) {
        None => Ok(false),
        Some(form) => meets(alloc, system, point, form, right),
    }
}

/// Whether two terms are numbers of one sort.
fn are_numbers(
    alloc: Global,
    signature: &Signature,
    left: &Term,
    right: &Term,
) -> Result<bool, AllocError>
    ensures { IfOk result (λ numbers. numbers ≡ sorts.same_numeric (sorts.sort_of signature.now left.now) (sorts.sort_of signature.now right.now)) }
{
    let first = sort_of(alloc, signature, left)?;
    let second = sort_of(alloc, signature, right)?;
    Ok(same_numeric(&first, &second))
}

/// Two terms, if their numbers are equal at a point and a trail doesn't have their order.
fn if_meeting(
    alloc: Global,
    system: &System,
    trail: &Trail,
    point: &[PointAt],
    left: &Term,
    right: &Term,
) -> Result<Option<Sides>, AllocError>
    requires normal { HasNormalForms system.now }
    ensures { IfOk result (λ found. IfSome found (λ both. (both ≡ record { left = left.now; right = right.now }) × IsOrderOpen trail.now.assigned both.left both.right)) }
{
    let equal = are_equal_at(alloc, system, point, left, right)?;
    if equal {
        return open_copies(alloc, trail, left, right);
    }
    Ok(None)
}

/// Two terms that are denied to be equal, if they are numbers that are equal at a point and whose order the trail doesn't have.
fn meeting_of(
    alloc: Global,
    signature: &Signature,
    system: &System,
    trail: &Trail,
    point: &[PointAt],
    left: &Term,
    right: &Term,
) -> Result<Option<Sides>, AllocError>
    requires normal { HasNormalForms system.now }
    requires denied { Holds trail.now.assigned (spec.is_false (Eq left.now right.now)) }
    ensures { IfOk result (λ found. IfSome found (IsMeeting signature.now trail.now.assigned)) }
{
    let numbers = are_numbers(alloc, signature, left, right)?;
    if numbers {
        return if_meeting(alloc, system, trail, point, left, right);
    }
    Ok(None)
}

/// Two numbers that a literal of a trail denies to be equal, if they are equal at a point and the trail doesn't have their order.
fn meeting_by(
    alloc: Global,
    signature: &Signature,
    system: &System,
    trail: &Trail,
    point: &[PointAt],
    literal: &Lit,
) -> Result<Option<Sides>, AllocError>
    requires normal { HasNormalForms system.now }
    requires holds { Holds trail.now.assigned literal.now }
    ensures { IfOk result (λ found. IfSome found (IsMeeting signature.now trail.now.assigned)) }
{
    match denied_sides(literal) {
        None => Ok(None),
        Some(sides) => meeting_of(
            alloc,
            signature,
            system,
            trail,
            point,
            sides.left,
            sides.right,
        ),
    }
}

/// All numbers that a trail denies to be equal, that are equal at a point, and whose order the trail doesn't have, two by two.
fn all_meetings(
    alloc: Global,
    signature: &Signature,
    system: &System,
    trail: &Trail,
    point: &[PointAt],
) -> Result<List<Sides>, AllocError>
    requires normal { HasNormalForms system.now }
{
    let mut all = List::new(alloc);
    for place in 0..trail.len() {
        let found = meeting_by(alloc, signature, system, trail, point, trail.lit_at(place))?;
        match found {
            None => {}
            Some(both) => all.push(both)?,
        }
    }
    Ok(all)
}

/// All numbers that the trail of a search denies to be equal, that are equal at a point by the values of its state, and whose order the trail doesn't have, two by
/// two. A number that leaves its limits on the way is passed over; a name that the point doesn't have is 0 there.
pub(crate) fn meetings(
    task: Task<'_>,
    search: &Search,
    point: &[PointAt],
) -> Result<List<Sides>, AllocError>
    requires fits { FitsStore search.now.solver.theory search.now.store }
    requires complete { IsComplete search.now.solver.theory }
{
    let system = search.solver.theory().system(task.alloc, &search.store)?;
    all_meetings(
        task.alloc,
        &task.problem.signature,
        &system,
        search.solver.trail(),
        point,
    )
}

/// That two numbers aren't equal.
fn unequal(alloc: Global, left: &Term, right: &Term) -> Result<Boxed<Lit>, AllocError>
    ensures { IfOk result (λ l. l ≡ spec.is_false (Eq left.now right.now)) }
{
    Boxed::new(
        alloc,
        Lit {
            positive: false,
            formula: Formula::Eq {
                left: copy_term(alloc, left)?,
                right: copy_term(alloc, right)?,
            },
        },
    )
}

/// Whether a trail denies that two numbers are equal.
fn is_unequal(alloc: Global, trail: &Trail, left: &Term, right: &Term) -> Result<bool, AllocError>
    ensures { IfOk result (λ said. MatchBool said (Holds trail.now.assigned (spec.is_false (Eq left.now right.now))) (¬ Holds trail.now.assigned (spec.is_false (Eq left.now right.now)))) }
{
    let literal = unequal(alloc, left, right)?;
    Ok(is_true(trail, literal.get()))
}

/// Two terms that are denied to be equal, by copies, if they are numbers whose order the trail doesn't have.
fn open_numbers(
    alloc: Global,
    signature: &Signature,
    trail: &Trail,
    left: &Term,
    right: &Term,
) -> Result<Option<Sides>, AllocError>
    requires denied { Holds trail.now.assigned (spec.is_false (Eq left.now right.now)) }
    ensures { IfOk result (λ found. IfSome found (IsMeeting signature.now trail.now.assigned)) }
{
    let numbers = are_numbers(alloc, signature, left, right)?;
    if numbers {
        return open_copies(alloc, trail, left, right);
    }
    Ok(None)
}

/// Two sides, by copies, if they are numbers that a trail denies to be equal, and whose order it doesn't have.
fn if_denied(
    alloc: Global,
    signature: &Signature,
    trail: &Trail,
    both: &Sides,
) -> Result<Option<Sides>, AllocError>
    ensures { IfOk result (λ found. IfSome found (IsMeeting signature.now trail.now.assigned)) }
{
    let denied = is_unequal(alloc, trail, &both.left, &both.right)?;
    if denied {
        return open_numbers(alloc, signature, trail, &both.left, &both.right);
    }
    Ok(None)
}

/// The first sides that are such.
pub(crate) fn first_denied(
    alloc: Global,
    signature: &Signature,
    trail: &Trail,
    sides: &[Sides],
) -> Result<Option<Sides>, AllocError>
    ensures { IfOk result (λ found. IfSome found (IsMeeting signature.now trail.now.assigned)) }
{
    for both in sides {
        let found = if_denied(alloc, signature, trail, both)?;
        match found {
            None => {}
            Some(copy) => return Ok(Some(copy)),
        }
    }
    Ok(None)
}

/// Of the sides that are remembered the first ones that are numbers which a trail denies to be equal, and whose order it doesn't have.
pub(crate) fn next_denied(
    alloc: Global,
    signature: &Signature,
    trail: &Trail,
    orders: &Orders,
) -> Result<Option<Sides>, AllocError>
    ensures { IfOk result (λ found. IfSome found (IsMeeting signature.now trail.now.assigned)) }
{
    match &orders.tight {
        None => Ok(None),
        Some(sides) => first_denied(alloc, signature, trail, sides.as_slice()),
    }
}
