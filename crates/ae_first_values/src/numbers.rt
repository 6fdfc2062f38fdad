//! Inverses and opposites of numbers.
ghost use Rattle.std.specs.Prelude.{◌≡◌, ◌≢◌, pos, negsuc, neg_ℤ, ◌<ℤ◌, IfOk};
ghost use Rattle.ae_math.specs.Fractions.{ratio, inverse_ℚ};
ghost use Rattle.ae_math.specs.Forms.{number, scale as scale_form};
ghost use Rattle.ae_num.specs.Forms.{meaning, SameMeaning, IsNormal, multiple_of};
ghost use Rattle.ae_num.specs.Limits.{FitsLimits};

use ae_num::forms::{Lin, fraction, scale};
use ae_num::numbers::NumFail;
use std::alloc::{AllocError, Global};

/// A value, and the number of the step that states it.
#[derive(Drop)]
pub struct Given {
    pub value: Lin,
    pub step: usize,
}

/// A number with the other sign.
fn negated(number: i128) -> i128
    requires { FitsLimits number }
    ensures { result ≡ neg_ℤ number }
{
    -number
}

/// The number `bottom / top`, in the normal form.
pub fn inverse(alloc: Global, top: i128, bottom: i128) -> Lin
    requires top { top ≢ pos 0 }
    requires bottom { pos 0 <ℤ bottom }
    requires top_within { FitsLimits top }
    requires bottom_within { FitsLimits bottom }
    ensures normal { IsNormal result }
    ensures meaning { SameMeaning (meaning result) (number (inverse_ℚ (ratio top bottom))) }
{
    if top > 0 {
        return fraction(alloc, bottom, top);
    }
    fraction(alloc, negated(bottom), negated(top))
}

/// A form times -1, in the normal form. No product of it leaves the limits.
pub fn opposite(alloc: Global, form: &Lin) -> Result<Lin, AllocError>
    requires { IsNormal form.now }
    ensures form { IfOk result (λ opposite. opposite ≡ multiple_of (negsuc 0) (pos 1) form.now) }
    ensures meaning { IfOk result (λ opposite. SameMeaning (meaning opposite) (scale_form (ratio (negsuc 0) (pos 1)) (meaning form.now))) }
    ensures normal { IfOk result (λ opposite. IsNormal opposite) }
{
    match scale(alloc, -1, 1, form) {
        Ok(opposite) => Ok(opposite),
        Err(fail) => match fail {
            NumFail::Memory(refused) => Err(refused),
            NumFail::Wide(_wide) => unreachable!(),
        },
    }
}
