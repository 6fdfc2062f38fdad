//! Whole numbers that the factors of steps are computed from.
ghost use Rattle.std.specs.Prelude.{◌≡◌, pos, ◌<ℤ◌, ◌*ℤ◌, neg_ℤ, unsigned_abs};
ghost use Rattle.ae_num.specs.Forms.{factor_of};
ghost use Rattle.ae_num.specs.Limits.{FitsLimits};
ghost use Rattle.ae_denominators.specs.Denominators.{Divides};
ghost use Rattle.ae_state_steps.specs.ValueSteps.{sign_of};

use ae_num::forms::{Name, Part};

/// The product of two numbers.
pub(crate) fn product(left: i128, right: i128) -> i128
    requires within { FitsLimits (left *ℤ right) }
    ensures { result ≡ left *ℤ right }
{
    left * right
}

/// How many times a number goes into another, of which it is a divisor.
pub(crate) fn quotient(whole: i128, den: i128) -> i128
    requires whole_within { FitsLimits whole }
    requires den_within { FitsLimits den }
    requires positive { pos 0 <ℤ den }
    requires divides { Divides den whole }
    ensures times { result *ℤ den ≡ whole }
    ensures positive { pos 0 <ℤ result }
{
    whole / den
}

/// A number with the other sign.
pub(crate) fn negated(number: i128) -> i128
    requires { FitsLimits number }
    ensures { result ≡ neg_ℤ number }
{
    -number
}

/// A number without its sign.
pub(crate) fn size(number: i128) -> i128
    requires { FitsLimits number }
    ensures { result ≡ pos (unsigned_abs number) }
{
    if number < 0 { negated(number) } else { number }
}

/// 1, and -1 for a negative number.
pub(crate) fn sign(number: i128) -> i128
    ensures { result ≡ sign_of number }
{
    if number < 0 { -1 } else { 1 }
}

/// The factor of a name, 0 where no part has it.
pub(crate) fn factor(parts: &[Part], name: Name) -> i128
    ensures { result ≡ factor_of parts.now name }
{
    for part in parts {
        if part.key == name {
            return part.factor;
        }
    }
    0
}
