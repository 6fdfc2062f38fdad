//! Why a difference can't be solved for its largest name: the product that leaves the limits.
ghost use Rattle.std.specs.Prelude.{◌≡◌, ◌≢◌, pos, [], ◌<ℤ◌, IfOk, IfSome, IfNone};
ghost use Rattle.std.specs.List.{AllByRecursion};
ghost use Rattle.ae_math.specs.Fractions.{zero_ℚ};
ghost use Rattle.ae_math.specs.Forms.{number, substitute};
ghost use Rattle.ae_num.specs.Forms.{meaning, SameMeaning, IsNormal, IsRising, IfWide};
ghost use Rattle.ae_num.specs.Limits.{FitsLimits};
ghost use Rattle.ae_linear.specs.Solving.{IsLargest, IsWideScaling, negated_inverse as negated_inverse_of};
ghost use Rattle.ae_value_fitting.specs.Refusals.{IfNumber};
ghost use Rattle.ae_number_solving.specs.Inner.Widths.{IsScalingWide};
ghost use native.Mathlib.Decide.{ℕ_discrete};

use ae_journal::answers::{NumStep, WideAt};
use ae_num::differences::rest_of;
use ae_num::forms::{Lin, Name, Part, fraction};
use ae_num::numbers::{NumFail, Wide};
use ae_value_fitting::Refused;
use std::alloc::{AllocError, Global};

/// The part of the largest name.
fn largest(parts: &[Part]) -> Option<Part>
    requires rising { IsRising parts.now }
    requires nonzero { AllByRecursion (λ p. p.factor ≢ pos 0) parts.now }
    ensures some { IfSome result (λ p. IsLargest parts.now p) }
    ensures none { IfNone result (parts.now ≡ []) }
{
    if parts.is_empty() {
        return None;
    }
    Some(parts[parts.len() - 1])
}

/// The number `-den / factor`.
fn negated_inverse(alloc: Global, den: i128, factor: i128) -> Lin
    requires den { pos 0 <ℤ den }
    requires factor { factor ≢ pos 0 }
    requires den_within { FitsLimits den }
    requires factor_within { FitsLimits factor }
    ensures form { result ≡ negated_inverse_of den factor }
    ensures normal { IsNormal result }
{
    if factor < 0 {
        fraction(alloc, den, -factor)
    } else {
        fraction(alloc, -den, factor)
    }
}

/// The form without a name.
fn rest(alloc: Global, form: &Lin, name: Name) -> Result<Lin, AllocError>
    requires { IsNormal form.now }
    ensures exact { IfOk result (λ rest. SameMeaning (meaning rest) (substitute ℕ_discrete (meaning form.now) name (number zero_ℚ))) }
    ensures normal { IfOk result (λ rest. IsNormal rest) }
{
    match rest_of(alloc, form, name) {
        Ok(rest) => Ok(rest),
        Err(fail) => match fail {
            NumFail::Memory(refused) => Err(refused),
            NumFail::Wide(_wide) => unreachable!(),
        },
    }
}

/// The step of which a product leaves the limits where a form is solved for its largest name.
fn scaling_width(alloc: Global, form: &Lin, wide: Wide) -> Result<WideAt, AllocError>
    requires form { IsNormal form.now }
    requires wide { IsWideScaling form.now wide }
    ensures { IfOk result (λ width. IsScalingWide form.now width) }
{
    let Some(part) = largest(form.parts.as_slice()) else {
        unreachable!();
    };
    let rest = rest(alloc, form, part.key)?;
    let by = negated_inverse(alloc, form.den, part.factor);
    Ok(WideAt {
        step: NumStep::Scale,
        left: rest,
        key: None,
        right: by,
        wide,
    })
}

/// Why a form isn't solved for its largest name, by why its solution is refused.
pub(crate) fn scaling_refused(alloc: Global, form: &Lin, fail: NumFail) -> Refused
    requires form { IsNormal form.now }
    requires wide { IfWide fail (λ wide. IsWideScaling form.now wide) }
    ensures { IfNumber result (λ width. IsScalingWide form.now width) }
{
    match fail {
        NumFail::Memory(refused) => Refused::Memory(refused),
        NumFail::Wide(wide) => match scaling_width(alloc, form, wide) {
            Ok(width) => Refused::Number(width),
            Err(refused) => Refused::Memory(refused),
        },
    }
}
