//! The combination of two rows that cancels a name.

ghost use Rattle.std.specs.Prelude.{◌≡◌, None, Some, pos, neg_ℤ, ◌<ℤ◌, IfOk, OnOk, IfErr};
ghost use Rattle.ae_num.specs.Forms.{meaning, SameMeaning, IsNormal, first_wide, IfWide, factor_of};
ghost use Rattle.ae_num.specs.Limits.{FitsLimits};
ghost use Rattle.ae_rows.specs.Rows.{combination};
ghost use Rattle.ae_num.specs.Forms.{combine_steps};
ghost use Rattle.ae_ineq.specs.Combining.{combined_of};

use ae_num::forms::{Lin, Name, plus, scale};
use ae_num::numbers::NumFail;
use std::alloc::Global;

/// The negation of a number within the limits.
fn negated(number: i128) -> i128
    requires { FitsLimits number }
    ensures { result ≡ neg_ℤ number }
{
    -number
}

/// The denominator of a form.
fn den_of(form: &Lin) -> i128
    ensures { result ≡ form.now.den }
{
    form.den
}

/// The sum of the positive multiples of two forms that cancels a name.
///
/// For the factors `c / d` and `-f / e` of the name, these are `f / e` times the first form and
/// `c / d` times the second one. `Wide` comes exactly where a stated product or sum leaves the
/// limits, with the first such pair: those of the two multiples, and then those of their sum.
pub fn combine(
    alloc: Global,
    name: Name,
    lower: &Lin,
    rising: i128,
    upper: &Lin,
    falling: i128,
) -> Result<Lin, NumFail>
    requires lower { IsNormal lower.now }
    requires upper { IsNormal upper.now }
    requires rising { factor_of lower.now.parts name ≡ rising }
    requires falling { factor_of upper.now.parts name ≡ falling }
    requires within { FitsLimits falling }
    ensures form { IfOk result (λ form. form ≡ combined_of name lower.now upper.now) }
    ensures exact { IfOk result (λ form. SameMeaning (meaning form) (combination name (meaning lower.now) (meaning upper.now))) }
    ensures normal { IfOk result (λ form. IsNormal form) }
    ensures fits { OnOk result (first_wide (combine_steps lower.now name upper.now) ≡ None) }
    ensures wide { IfErr result (λ fail. IfWide fail (λ wide. first_wide (combine_steps lower.now name upper.now) ≡ Some wide)) }
{
    let left = scale(alloc, negated(falling), den_of(upper), lower)?;
    let right = scale(alloc, rising, den_of(lower), upper)?;
    plus(alloc, &left, &right)
}
