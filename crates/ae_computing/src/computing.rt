//! What is computed: whether numerals and linear operations have the values that they state.
ghost use Rattle.std.specs.Prelude.{◌≡◌, ◌↔◌, ◌∷◌, [], true, IfOk};
ghost use Rattle.std.specs.List.{list_all};
ghost use Rattle.ae_naturals.specs.Fractions.{value_of};
ghost use Rattle.ae_decide.specs.Clauses.{HasTerms, HasLeaves, IsComputed};
ghost use Rattle.ae_computing.specs.Inner.Computed as spec;
ghost use Rattle.ae_computing.specs.Inner.Totals as total_spec;

use crate::forms::number_of;
use crate::fractions::{inverse_of, minus_one, one};
use crate::operations::{Operation, operation_of};
use crate::values::{Summand, is_total};
use ae_core::lists::List;
use ae_core::problems::Signature;
use ae_core::terms::Term;
use ae_decide::values::value_of;
use ae_journal::systems::System;
use ae_naturals::fractions::Fraction;
use ae_num::forms::{Lin, Value};
use std::alloc::{AllocError, Global};

/// Whether a value is another times a number.
fn is_multiple(
    alloc: Global,
    value: &Value,
    factor: Fraction,
    of: &Value,
) -> Result<bool, AllocError>
    ensures { IfOk result (λ b. b ≡ total_spec.is_total value.now ((value_of factor, of.now) ∷ [])) }
{
    let mut summands = Vec::new(alloc);
    summands.push(Summand { factor, value: of })?;
    is_total(alloc, value, summands.as_slice())
}

/// Whether a value is the sum of another and of a multiple of a third.
fn is_sum(
    alloc: Global,
    value: &Value,
    left: &Value,
    factor: Fraction,
    right: &Value,
) -> Result<bool, AllocError>
    ensures { IfOk result (λ b. b ≡ spec.is_sum value.now left.now (value_of factor) right.now) }
{
    let mut summands = Vec::new(alloc);
    let once = one(alloc)?;
    summands.push(Summand {
        factor: once,
        value: left,
    })?;
    summands.push(Summand {
        factor,
        value: right,
    })?;
    is_total(alloc, value, summands.as_slice())
}

/// Whether a value is the number `top / bottom`.
fn is_numeral(alloc: Global, value: &Value, top: i128, bottom: i128) -> Result<bool, AllocError>
    ensures { IfOk result (λ b. b ≡ spec.is_numeral value.now top bottom) }
{
    let numeral = Value::Number(Lin {
        den: bottom,
        parts: List::new(alloc),
        constant: top,
    });
    let once = one(alloc)?;
    is_multiple(alloc, value, once, &numeral)
}

/// Whether a value is the product of two others, if the term of one of them is a number.
fn is_product(
    alloc: Global,
    value: &Value,
    left: &Term,
    right: &Term,
    first: &Value,
    second: &Value,
) -> Result<bool, AllocError>
    ensures { IfOk result (λ b. b ≡ spec.is_product value.now left.now right.now first.now second.now) }
{
    if let Some(factor) = number_of(alloc, left)? {
        return is_multiple(alloc, value, factor, second);
    }
    match number_of(alloc, right)? {
        Some(factor) => is_multiple(alloc, value, factor, first),
        None => Ok(true),
    }
}

/// Whether a value is the quotient of another by a term, if that is a numeral other than 0.
fn is_quotient(alloc: Global, value: &Value, first: &Value, by: &Term) -> Result<bool, AllocError>
    ensures { IfOk result (λ b. b ≡ spec.is_quotient value.now first.now by.now) }
{
    match inverse_of(alloc, by)? {
        Some(inverse) => is_multiple(alloc, value, inverse, first),
        None => Ok(true),
    }
}

/// Whether a value is what an operation makes of two terms of these values, if that is computed.
fn fits_two(
    alloc: Global,
    operation: Operation,
    value: &Value,
    left: &Term,
    right: &Term,
    first: &Value,
    second: &Value,
) -> Result<bool, AllocError>
    ensures { IfOk result (λ b. b ≡ spec.fits_two operation value.now left.now right.now first.now second.now) }
{
    match operation {
        Operation::Sum => is_sum(alloc, value, first, one(alloc)?, second),
        Operation::Difference => is_sum(alloc, value, first, minus_one(alloc)?, second),
        Operation::Product => is_product(alloc, value, left, right, first, second),
        Operation::Quotient => is_quotient(alloc, value, first, right),
        Operation::Negation => Ok(true),
        Operation::Opaque => Ok(true),
    }
}

/// Whether a value is what an operation makes of one value, if that is computed.
fn fits_one(
    alloc: Global,
    operation: Operation,
    value: &Value,
    of: &Value,
) -> Result<bool, AllocError>
    ensures { IfOk result (λ b. b ≡ spec.fits_one operation value.now of.now) }
{
    match operation {
        Operation::Negation => is_multiple(alloc, value, minus_one(alloc)?, of),
        _ => Ok(true),
    }
}

/// Whether a value is what an operation makes of these terms, if that is computed.
fn fits(
    alloc: Global,
    system: &System,
    operation: Operation,
    value: &Value,
    args: &[Term],
) -> Result<bool, AllocError>
    ensures { IfOk result (λ b. b ≡ spec.fits system.now operation value.now args.now) }
{
    match args {
        [of] => match value_of(system, of) {
            Some(known) => fits_one(alloc, operation, value, known),
            None => Ok(true),
        },
        [left, right] => match value_of(system, left) {
            Some(first) => match value_of(system, right) {
                Some(second) => fits_two(alloc, operation, value, left, right, first, second),
                None => Ok(true),
            },
            None => Ok(true),
        },
        _ => Ok(true),
    }
}

/// Whether a value is the one that a term states, if it states one.
fn is_right(alloc: Global, system: &System, term: &Term, value: &Value) -> Result<bool, AllocError>
    ensures { IfOk result (λ b. b ≡ spec.is_right system.now term.now value.now) }
{
    match term {
        Term::Num { top, bottom, .. } => is_numeral(alloc, value, *top, *bottom),
        Term::Apply { head, args, .. } => fits(
            alloc,
            system,
            operation_of(*head),
            value,
            args.as_slice(),
        ),
        Term::Bound(_) => Ok(true),
        Term::Fresh { .. } => Ok(true),
    }
}

/// Whether a name has the value that its term states, if it states one.
fn has_right(alloc: Global, system: &System, term: &Term) -> Result<bool, AllocError>
    ensures { IfOk result (λ b. b ≡ spec.has_right system.now term.now) }
{
    match value_of(system, term) {
        Some(value) => is_right(alloc, system, term, value),
        None => Ok(true),
    }
}

/// Whether each name has the value that its term states, if it states one.
fn all_right(alloc: Global, system: &System) -> Result<bool, AllocError>
    ensures { IfOk result (λ b. b ≡ spec.all_right system.now) }
{
    let names = system.names.as_slice();
    for name in names {
        if !has_right(alloc, system, name)? {
            return Ok(false);
        }
    }
    Ok(true)
}

/// Whether numerals and linear operations have the values that are computed: the third clause of a completed system.
///
/// It computes with fractions of any size, so that it is refused for want of memory alone. Its time grows with the product of the
/// number of names and the size of their terms, and for products with the third power of that size.
pub fn has_computed(
    alloc: Global,
    signature: &Signature,
    system: &System,
) -> Result<bool, AllocError>
    requires terms { HasTerms signature.now system.now }
    requires leaves { HasLeaves signature.now system.now }
    ensures { IfOk result (λ b. (b ≡ true) ↔ IsComputed signature.now system.now) }
{
    all_right(alloc, system)
}
