//! Division of all numbers of a form by their greatest common divisor.

ghost use Rattle.std.specs.Prelude.{◌≡◌, ◌≢◌, pos, ◌<◌, ◌^◌, ◌<ℤ◌, ◌≤ℤ◌, unsigned_abs, IfOk};
ghost use Rattle.std.specs.List.{AllByRecursion};
ghost use Rattle.ae_num.specs.Forms.{sizes, IsCommonDivisor, IsRising, IsNormal, divided, lowest, Reduced};

use crate::forms::{Lin, Part};
use crate::numbers::gcd;
use sqlite_items::Items;
use std::alloc::{AllocError, Global};

/// The greatest common divisor of all numbers of a form: its denominator, its constant and its factors.
pub fn common_divisor(form: &Lin) -> i128
    requires within { AllByRecursion (λ n. n < 2 ^ 127) (sizes form.now.den form.now.parts form.now.constant) }
    ensures common { IsCommonDivisor (sizes form.now.den form.now.parts form.now.constant) (unsigned_abs result) }
    ensures sign { pos 0 ≤ℤ result }
{
    let mut divisor = gcd(form.den, form.constant);
    for part in form.parts.as_slice() {
        divisor = gcd(divisor, part.factor);
    }
    divisor
}

/// The form with all numbers divided by a positive one; `Err` where there is no memory for it.
pub fn divide(alloc: Global, form: &Lin, divisor: i128) -> Result<Lin, AllocError>
    requires { pos 0 <ℤ divisor }
    ensures { IfOk result (λ quotient. quotient ≡ divided divisor form.now) }
{
    let mut parts = Items::new(alloc);
    for part in form.parts.as_slice() {
        parts.push(Part {
            key: part.key,
            factor: part.factor / divisor,
        })?;
    }
    Ok(Lin {
        den: form.den / divisor,
        parts,
        constant: form.constant / divisor,
    })
}

/// The normal form of a form with rising keys and no factor 0; `Err` where there is no memory for it.
pub fn reduced(alloc: Global, whole: &Lin) -> Result<Lin, AllocError>
    requires positive { pos 0 <ℤ whole.now.den }
    requires rising { IsRising whole.now.parts }
    requires nonzero { AllByRecursion (λ p. p.factor ≢ pos 0) whole.now.parts }
    requires within { AllByRecursion (λ n. n < 2 ^ 127) (sizes whole.now.den whole.now.parts whole.now.constant) }
    ensures exact { IfOk result (λ form. Reduced whole.now form) }
    ensures form { IfOk result (λ form. form ≡ lowest whole.now) }
    ensures normal { IfOk result (λ form. IsNormal form) }
{
    divide(alloc, whole, common_divisor(whole))
}
