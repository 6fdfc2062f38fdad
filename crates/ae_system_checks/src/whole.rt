//! Values of integers.
ghost use Rattle.std.specs.Prelude.{◌≡◌, ◌↔◌, true};
ghost use Rattle.ae_num.specs.Forms.{IsNormal};
ghost use Rattle.ae_system_checks.specs.Whole.{IsWhole};

use ae_num::forms::Lin;
use ae_num::numbers::gcd;

/// Whether no number but 1 divides the denominator and each factor of a value: what a saturated state asks of the value of
/// each name of sort `int`.
pub fn is_whole(value: &Lin) -> bool
    requires normal { IsNormal value.now }
    ensures { (result ≡ true) ↔ IsWhole value.now }
{
    let mut divisor = value.den;
    for part in value.parts.as_slice() {
        divisor = gcd(divisor, part.factor);
    }
    divisor.unsigned_abs() == 1
}
