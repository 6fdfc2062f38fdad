//! The inequalities of a state: whether they hold at its point.
ghost use Rattle.std.specs.Prelude.{◌≡◌, true, false, [], ◌∷◌, Some, None, IfOk, IfSome, IfNone};
ghost use Rattle.std.specs.List.{list_all};
ghost use Rattle.ae_math.specs.Fractions.{one_ℚ, neg_ℚ, ratio, ◌*ℚ◌};
ghost use Rattle.ae_math.specs.Forms.{sum_of};
ghost use Rattle.ae_core.specs.declared.formulas.Formula.{out-Formula};
ghost use Rattle.ae_num.specs.Forms.{meaning as form_of};
ghost use Rattle.ae_journal.specs.States.{at_point, inequality, inequality_of};
ghost use Rattle.ae_naturals.specs.Fractions.{value_of as number};
ghost use Rattle.ae_computing.specs.Inner.Totals.{is_total as is_total_by};
ghost use Rattle.ae_saturated.specs.Order as spec;

use ae_computing::fractions::{minus_one, one, quotient, zero};
use ae_computing::values::{Summand, is_total};
use ae_core::formulas::{Formula, Lit};
use ae_core::lists::List;
use ae_core::terms::Term;
use ae_decide::values::value_of;
use ae_journal::systems::{PointAt, System};
use ae_naturals::fractions::Fraction;
use ae_num::forms::{Lin, Name, Part, Value};
use std::alloc::{AllocError, Global};

/// An inequality, by its sides.
#[derive(Clone, Copy)]
struct Comparison<'a> {
    /// The side that isn't less.
    upper: &'a Term,
    lower: &'a Term,
    /// Whether equality is excluded.
    strict: bool,
}

/// The sides of an inequality that holds.
fn sides_of<'a>(formula: &'a Formula) -> Option<Comparison<'a>>
    ensures some { IfSome result (λ sides. inequality_of true (out-Formula formula.now) ≡ Some (sides.upper.now, sides.lower.now, sides.strict)) }
    ensures none { IfNone result (inequality_of true (out-Formula formula.now) ≡ None) }
{
    match formula {
        Formula::Lt { left, right } => Some(Comparison {
            upper: right,
            lower: left,
            strict: true,
        }),
        Formula::Le { left, right } => Some(Comparison {
            upper: right,
            lower: left,
            strict: false,
        }),
        _ => None,
    }
}

/// The sides of the inequality that holds where a formula doesn't.
fn opposite_sides_of<'a>(formula: &'a Formula) -> Option<Comparison<'a>>
    ensures some { IfSome result (λ sides. inequality_of false (out-Formula formula.now) ≡ Some (sides.upper.now, sides.lower.now, sides.strict)) }
    ensures none { IfNone result (inequality_of false (out-Formula formula.now) ≡ None) }
{
    match formula {
        Formula::Lt { left, right } => Some(Comparison {
            upper: left,
            lower: right,
            strict: false,
        }),
        Formula::Le { left, right } => Some(Comparison {
            upper: left,
            lower: right,
            strict: true,
        }),
        _ => None,
    }
}

/// The sides of a literal, if it is an inequality.
fn sides<'a>(literal: &'a Lit) -> Option<Comparison<'a>>
    ensures some { IfSome result (λ sides. inequality literal.now ≡ Some (sides.upper.now, sides.lower.now, sides.strict)) }
    ensures none { IfNone result (inequality literal.now ≡ None) }
{
    if literal.positive {
        sides_of(&literal.formula)
    } else {
        opposite_sides_of(&literal.formula)
    }
}

/// The fraction of a name: that of its first entry, 0 where it has none.
#[tactic(auto, using(crate::proofs::OrderTests::point_step, crate::proofs::OrderTests::no_point_left))]
fn fraction_of(alloc: Global, point: &[PointAt], name: Name) -> Result<Fraction, AllocError>
    ensures { IfOk result (λ fraction. number fraction ≡ at_point point.now name) }
{
    for entry in point {
        if entry.name == name {
            return quotient(alloc, entry.top, entry.bottom);
        }
    }
    zero(alloc)
}

/// What a part of a form is at the point.
fn part_at(
    alloc: Global,
    point: &[PointAt],
    part: &Part,
    form: &Lin,
) -> Result<Fraction, AllocError>
    ensures { IfOk result (λ product. number product ≡ ratio part.now.factor form.now.den *ℚ at_point point.now part.now.key) }
{
    let factor = quotient(alloc, part.factor, form.den)?;
    let fraction = fraction_of(alloc, point, part.key)?;
    factor.times(alloc, &fraction)
}

/// What the parts of a form are at the point, together.
fn sum_at(alloc: Global, point: &[PointAt], form: &Lin) -> Result<Fraction, AllocError>
    ensures { IfOk result (λ sum. number sum ≡ sum_of (at_point point.now) (form_of form.now).parts) }
{
    let mut sum = zero(alloc)?;
    let parts = form.parts.as_slice();
    for part in parts {
        let product = part_at(alloc, point, part, form)?;
        sum = sum.plus(alloc, &product)?;
    }
    Ok(sum)
}

/// The number that a value is at the point; what is no number counts as 0.
fn number_of(alloc: Global, point: &[PointAt], value: &Value) -> Result<Fraction, AllocError>
    ensures { IfOk result (λ fraction. number fraction ≡ spec.number_of point.now value.now) }
{
    match value {
        Value::Number(form) => {
            let sum = sum_at(alloc, point, form)?;
            let constant = quotient(alloc, form.constant, form.den)?;
            sum.plus(alloc, &constant)
        }
        Value::Leaf(_) => zero(alloc),
        Value::Fields(_) => zero(alloc),
    }
}

/// Whether a value is above another at the point.
fn is_above(
    alloc: Global,
    point: &[PointAt],
    upper: &Value,
    lower: &Value,
) -> Result<bool, AllocError>
    ensures { IfOk result (λ b. b ≡ spec.is_above point.now upper.now lower.now) }
{
    let first = number_of(alloc, point, upper)?;
    let second = number_of(alloc, point, lower)?;
    let difference = first.plus(alloc, &second.negated())?;
    Ok(difference.is_positive())
}

/// Whether a value is the difference of two others.
fn is_difference(
    alloc: Global,
    value: &Value,
    upper: &Value,
    lower: &Value,
) -> Result<bool, AllocError>
    ensures { IfOk result (λ b. b ≡ is_total_by value.now ((one_ℚ, upper.now) ∷ (neg_ℚ one_ℚ, lower.now) ∷ [])) }
{
    let mut summands = Vec::new(alloc);
    let once = one(alloc)?;
    summands.push(Summand {
        factor: once,
        value: upper,
    })?;
    let minus = minus_one(alloc)?;
    summands.push(Summand {
        factor: minus,
        value: lower,
    })?;
    is_total(alloc, value, summands.as_slice())
}

/// Whether the difference of two values is 0 whatever the leaves are.
fn are_even(alloc: Global, upper: &Value, lower: &Value) -> Result<bool, AllocError>
    ensures { IfOk result (λ b. b ≡ spec.are_even upper.now lower.now) }
{
    let nothing = Value::Number(Lin {
        den: 1,
        parts: List::new(alloc),
        constant: 0,
    });
    is_difference(alloc, &nothing, upper, lower)
}

/// Whether an inequality of two values holds at the point.
fn holds_at(
    alloc: Global,
    point: &[PointAt],
    strict: bool,
    upper: &Value,
    lower: &Value,
) -> Result<bool, AllocError>
    ensures { IfOk result (λ b. b ≡ spec.holds_at point.now strict upper.now lower.now) }
{
    if !strict && are_even(alloc, upper, lower)? {
        return Ok(true);
    }
    is_above(alloc, point, upper, lower)
}

/// Whether an inequality of the values of these terms does, if both are names.
fn sides_hold(
    alloc: Global,
    system: &System,
    point: &[PointAt],
    upper: &Term,
    lower: &Term,
    strict: bool,
) -> Result<bool, AllocError>
    ensures { IfOk result (λ b. b ≡ spec.sides_hold system.now point.now (Some (upper.now, lower.now, strict))) }
{
    match (value_of(system, upper), value_of(system, lower)) {
        (Some(first), Some(second)) => holds_at(alloc, point, strict, first, second),
        _ => Ok(true),
    }
}

/// Whether a literal is no inequality, or one that holds.
fn inequality_holds(
    alloc: Global,
    system: &System,
    point: &[PointAt],
    literal: &Lit,
) -> Result<bool, AllocError>
    ensures { IfOk result (λ b. b ≡ spec.inequality_holds system.now point.now literal.now) }
{
    match sides(literal) {
        None => Ok(true),
        Some(sides) => sides_hold(alloc, system, point, sides.upper, sides.lower, sides.strict),
    }
}

/// Whether each inequality holds.
pub fn inequalities_hold(
    alloc: Global,
    system: &System,
    point: &[PointAt],
    literals: &[Lit],
) -> Result<bool, AllocError>
    ensures { IfOk result (λ b. b ≡ spec.inequalities_hold system.now point.now literals.now) }
{
    for literal in literals {
        if !inequality_holds(alloc, system, point, literal)? {
            return Ok(false);
        }
    }
    Ok(true)
}
