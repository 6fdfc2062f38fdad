//! Values of integers.
ghost use Rattle.std.specs.Prelude.{◌≡◌, ◌↔◌, ◌<◌, ◌^◌, ◌∷◌, map, unsigned_abs, IsTrue};
ghost use Rattle.ae_num.specs.Forms.{IsCommonDivisor, IsNormal};

use ae_num::forms::Lin;
use ae_num::numbers::gcd;

/// The greatest common divisor of the denominator and the factors of a form.
fn divisor(form: &Lin) -> i128
    requires normal { IsNormal form.now }
    ensures common { IsCommonDivisor (unsigned_abs form.now.den ∷ map (λ p. unsigned_abs p.factor) form.now.parts) (unsigned_abs result) }
    ensures within { unsigned_abs result < 2 ^ 127 }
{
    let mut divisor = form.den;
    for part in form.parts.as_slice() {
        divisor = gcd(divisor, part.factor);
    }
    divisor
}

/// Whether no number but 1 divides the denominator and all factors of a value: another value than such a one is none of an integer.
pub fn is_whole(form: &Lin) -> bool
    requires normal { IsNormal form.now }
    ensures { IsTrue result ↔ IsCommonDivisor (unsigned_abs form.now.den ∷ map (λ p. unsigned_abs p.factor) form.now.parts) 1 }
{
    divisor(form).unsigned_abs() == 1
}
