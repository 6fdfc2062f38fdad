//! Written values, compared with sums of multiples of values, number by number.
ghost use Rattle.std.specs.Prelude.{◌≡◌, IfOk, map};
ghost use Rattle.std.specs.List.{list_all};
ghost use Rattle.ae_journal.specs.Values.{leaf_factor as factor_in};
ghost use Rattle.ae_num.specs.Forms.{meaning as form_of};
ghost use Rattle.ae_naturals.specs.Fractions.{value_of};
ghost use Rattle.ae_computing.specs.Inner.Totals as spec;

use crate::fractions::{are_same, quotient, zero};
use ae_naturals::fractions::Fraction;
use ae_num::forms::{Lin, Name, Value};
use std::alloc::{AllocError, Global};

/// Where a number stands in a value.
#[derive(Clone, Copy)]
pub enum Place {
    /// The constant.
    Constant,
    /// The factor of a leaf.
    Leaf(Name),
}

/// A value times a number.
#[derive(Drop)]
pub struct Summand<'a> {
    pub factor: Fraction,
    pub value: &'a Value,
}

/// The factor of a leaf: the sum of its factors.
fn leaf_factor(alloc: Global, form: &Lin, leaf: Name) -> Result<Fraction, AllocError>
    ensures { IfOk result (λ factor. value_of factor ≡ factor_in (form_of form.now).parts leaf) }
{
    let mut sum = zero(alloc)?;
    let parts = form.parts.as_slice();
    for part in parts {
        if part.key == leaf {
            let factor = quotient(alloc, part.factor, form.den)?;
            sum = sum.plus(alloc, &factor)?;
        }
    }
    Ok(sum)
}

/// The number at a place of a value; 0 where that is no number.
fn coefficient(alloc: Global, value: &Value, place: Place) -> Result<Fraction, AllocError>
    ensures { IfOk result (λ number. value_of number ≡ spec.coefficient place value.now) }
{
    match value {
        Value::Number(form) => match place {
            Place::Constant => quotient(alloc, form.constant, form.den),
            Place::Leaf(leaf) => leaf_factor(alloc, form, leaf),
        },
        Value::Leaf(_) => zero(alloc),
        Value::Fields(_) => zero(alloc),
    }
}

/// The number at a place of a sum.
fn total(alloc: Global, summands: &[Summand], place: Place) -> Result<Fraction, AllocError>
    ensures { IfOk result (λ number. value_of number ≡ spec.total (map spec.summand summands.now) place) }
{
    let mut sum = zero(alloc)?;
    for summand in summands {
        let number = coefficient(alloc, summand.value, place)?;
        let product = summand.factor.times(alloc, &number)?;
        sum = sum.plus(alloc, &product)?;
    }
    Ok(sum)
}

/// Whether a value has the number of the sum at a place.
fn agrees_at(
    alloc: Global,
    value: &Value,
    summands: &[Summand],
    place: Place,
) -> Result<bool, AllocError>
    ensures { IfOk result (λ b. b ≡ spec.agrees_at value.now (map spec.summand summands.now) place) }
{
    let own = coefficient(alloc, value, place)?;
    let stated = total(alloc, summands, place)?;
    are_same(alloc, &own, stated)
}

/// Whether a value has the numbers of the sum at the leaves of a form.
fn agrees_over(
    alloc: Global,
    value: &Value,
    summands: &[Summand],
    form: &Lin,
) -> Result<bool, AllocError>
    ensures { IfOk result (λ b. b ≡ spec.agrees_over value.now (map spec.summand summands.now) form.now) }
{
    let parts = form.parts.as_slice();
    for part in parts {
        if !agrees_at(alloc, value, summands, Place::Leaf(part.key))? {
            return Ok(false);
        }
    }
    Ok(true)
}

/// Whether a value has the numbers of the sum at the leaves of another value.
fn agrees_on(
    alloc: Global,
    value: &Value,
    summands: &[Summand],
    other: &Value,
) -> Result<bool, AllocError>
    ensures { IfOk result (λ b. b ≡ spec.agrees_on value.now (map spec.summand summands.now) other.now) }
{
    match other {
        Value::Number(form) => agrees_over(alloc, value, summands, form),
        Value::Leaf(_) => Ok(true),
        Value::Fields(_) => Ok(true),
    }
}

/// Whether a value has the numbers of the sum at the leaves of each summand.
fn agrees_on_each(alloc: Global, value: &Value, summands: &[Summand]) -> Result<bool, AllocError>
    ensures { IfOk result (λ b. b ≡ list_all (spec.agrees_on_summand value.now (map spec.summand summands.now)) summands.now) }
{
    for summand in summands {
        if !agrees_on(alloc, value, summands, summand.value)? {
            return Ok(false);
        }
    }
    Ok(true)
}

/// Whether a value is a number.
fn is_number(value: &Value) -> bool
    ensures { result ≡ spec.is_number value.now }
{
    match value {
        Value::Number(_) => true,
        Value::Leaf(_) => false,
        Value::Fields(_) => false,
    }
}

/// Whether a value is the sum: a number that has the sum's constant and, at the leaves of both, its factors.
pub fn is_total(alloc: Global, value: &Value, summands: &[Summand]) -> Result<bool, AllocError>
    ensures { IfOk result (λ b. b ≡ spec.is_total value.now (map spec.summand summands.now)) }
{
    if !is_number(value) {
        return Ok(false);
    }
    if !agrees_at(alloc, value, summands, Place::Constant)? {
        return Ok(false);
    }
    if !agrees_on(alloc, value, summands, value)? {
        return Ok(false);
    }
    agrees_on_each(alloc, value, summands)
}
