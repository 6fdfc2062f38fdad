//! The lines that say rows.
ghost use Rattle.std.specs.Prelude.{◌≡◌, ◌<ℤ◌, ◌<◌, ◌^◌, ◌*ℤ◌, ◌∷◌, [], ℕ, ℤ, pos, neg_ℤ, length, map, slice_get, unsigned_abs, Some, IfOk};
ghost use Rattle.ae_num.specs.Limits.{FitsLimits};
ghost use Rattle.ae_ineq.specs.Inner.Sets.{last_part};
ghost use Rattle.ae_store.specs.Shapes.{shapes};
ghost use Rattle.ae_store.specs.Terms.{terms};
ghost use Rattle.ae_just.specs.Sides.{ArePartsWithin};
ghost use Rattle.ae_state_steps.specs.ValueSteps.{times_of, value_side};
ghost use Rattle.ae_bound_blocks.specs.Said as spec;

use ae_core::lists::List;
use ae_core::proofs::{EqLine, Scaled};
use ae_core::terms::Term;
use ae_ineq::rows::last;
use ae_just::sides::side_term;
use ae_just::steps::{Side, Times};
use ae_num::forms::{Lin, Part};
use ae_store::store::Store;
use std::alloc::{AllocError, Global};

/// The names of a form with their factors.
fn all_times(alloc: Global, parts: &[Part]) -> Result<List<Times>, AllocError>
    ensures { IfOk result (λ all. all ≡ times_of parts.now) }
{
    let mut all = List::new(alloc);
    for part in parts {
        all.push(Times {
            factor: part.factor,
            name: part.key,
        })?;
    }
    Ok(all)
}

/// A form times its denominator, as a side.
fn side_of(alloc: Global, real: bool, form: &Lin) -> Result<Side, AllocError>
    ensures { IfOk result (λ s. s ≡ value_side real form.now) }
{
    let parts = all_times(alloc, form.parts.as_slice())?;
    Ok(Side::Sum {
        parts,
        constant: form.constant,
        real,
    })
}

/// A form times its denominator, written out.
pub fn sum_term(alloc: Global, store: &Store, real: bool, form: &Lin) -> Result<Term, AllocError>
    requires within { ArePartsWithin (length (terms (shapes store.now.nodes))) (times_of form.now.parts) }
    ensures { IfOk result (λ t. t ≡ spec.sum_term (terms (shapes store.now.nodes)) real form.now) }
{
    let side = side_of(alloc, real, form)?;
    side_term(alloc, store, &side)
}

/// The line of a sum, strict or not.
fn sum_line(strict: bool, left: Term, right: Term, times: i128, parts: List<Scaled>) -> EqLine
    ensures { result ≡ spec.sum_line strict left right times parts }
{
    if strict {
        EqLine::LtSum {
            left,
            right,
            times,
            parts,
        }
    } else {
        EqLine::LeSum {
            left,
            right,
            times,
            parts,
        }
    }
}

/// The line that says a row as a sum of earlier lines.
pub fn row_line(
    alloc: Global,
    store: &Store,
    real: bool,
    strict: bool,
    form: &Lin,
    times: i128,
    parts: List<Scaled>,
) -> Result<EqLine, AllocError>
    requires within { ArePartsWithin (length (terms (shapes store.now.nodes))) (times_of form.now.parts) }
    ensures { IfOk result (λ l. l ≡ spec.row_line (terms (shapes store.now.nodes)) real strict form.now times parts) }
{
    let zero = Term::Num {
        top: 0,
        bottom: 1,
        real,
    };
    let sum = sum_term(alloc, store, real, form)?;
    Ok(sum_line(strict, zero, sum, times, parts))
}

/// The line that rounds what an earlier line says.
pub fn round_line(
    alloc: Global,
    store: &Store,
    real: bool,
    form: &Lin,
    line: usize,
) -> Result<EqLine, AllocError>
    requires within { ArePartsWithin (length (terms (shapes store.now.nodes))) (times_of form.now.parts) }
    ensures { IfOk result (λ l. l ≡ spec.round_line (terms (shapes store.now.nodes)) real form.now line) }
{
    let left = Term::Num {
        top: 0,
        bottom: 1,
        real,
    };
    let right = sum_term(alloc, store, real, form)?;
    Ok(EqLine::LeRound { left, right, line })
}

/// The number of the line of a row.
pub fn line_at(places: &[usize], row: usize) -> usize
    requires { row < length places.now }
    ensures { slice_get places.now row ≡ Some result }
{
    places[row]
}

/// One line with a factor.
pub fn one_part(alloc: Global, factor: i128, line: usize) -> Result<List<Scaled>, AllocError>
    ensures { IfOk result (λ parts. parts ≡ record { factor = factor; line = line } ∷ []) }
{
    let mut parts = List::new(alloc);
    parts.push(Scaled { factor, line })?;
    Ok(parts)
}

/// The factor of the largest name, 0 where there is none.
pub fn last_factor(form: &Lin) -> i128
    ensures { (part : _) → last_part form.now.parts ≡ Some part → result ≡ part.factor }
{
    match last(form.parts.as_slice()) {
        Some(part) => part.factor,
        None => 0,
    }
}

/// Two lines with factors, of which the first is the opposite of a negative one.
pub fn two_parts(
    alloc: Global,
    falling: i128,
    lower: usize,
    rising: i128,
    upper: usize,
) -> Result<List<Scaled>, AllocError>
    requires falling { FitsLimits falling }
    ensures { IfOk result (λ parts. parts ≡ record { factor = neg_ℤ falling; line = lower } ∷ record { factor = rising; line = upper } ∷ []) }
{
    let mut parts = List::new(alloc);
    parts.push(Scaled {
        factor: -falling,
        line: lower,
    })?;
    parts.push(Scaled {
        factor: rising,
        line: upper,
    })?;
    Ok(parts)
}

/// By which number the line of a combination is multiplied: the product of the two denominators over its own.
pub fn line_times(lower: &Lin, upper: &Lin, sum: &Lin) -> i128
    requires product { FitsLimits (lower.now.den *ℤ upper.now.den) }
    requires some { pos 0 <ℤ sum.now.den }
    requires divides { (d : ℤ) × (d *ℤ sum.now.den ≡ lower.now.den *ℤ upper.now.den) }
    ensures { result *ℤ sum.now.den ≡ lower.now.den *ℤ upper.now.den }
{
    let product = lower.den * upper.den;
    product / sum.den
}
