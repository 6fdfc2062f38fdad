//! Rows over integers, rounded.

ghost use Rattle.std.specs.Prelude.{◌≡◌, ◌≢◌, ◌<ℤ◌, ◌-ℤ◌, pos, true, false, cond, [], map, unsigned_abs, IfOk, IfSome, IfNone};
ghost use Rattle.std.specs.List.{AllByRecursion};
ghost use Rattle.ae_num.specs.Forms.{IsNormal, IsRising, IsCommonDivisor};
ghost use Rattle.ae_num.specs.Limits.{FitsLimits};
ghost use Rattle.ae_rules.specs.Lines.{IsFloor};
ghost use Rattle.ae_journal.specs.Sides.{AreDivided, IsRounded};
ghost use Rattle.ae_rounding.specs.Outside.{IsOutside};

use ae_core::sorts::is_within;
use ae_num::forms::{Lin, Part};
use ae_num::reduction::{common_divisor, divide};
use sqlite_items::Items;
use std::alloc::{AllocError, Global};

/// The greatest common divisor of the factors.
fn common_factor(alloc: Global, form: &Lin) -> Result<i128, AllocError>
    requires normal { IsNormal form.now }
    requires names { form.now.parts ≢ [] }
    ensures common { IfOk result (λ divisor. IsCommonDivisor (map (λ p. unsigned_abs p.factor) form.now.parts) (unsigned_abs divisor)) }
    ensures positive { IfOk result (λ divisor. pos 0 <ℤ divisor) }
    ensures within { IfOk result (λ divisor. FitsLimits divisor) }
{
    let factors = Lin {
        den: 0,
        parts: Items::from_slice(alloc, form.parts.as_slice())?,
        constant: 0,
    };
    Ok(common_divisor(&factors))
}

/// The parts with their factors divided by the greatest common divisor of these.
fn quotients(alloc: Global, form: &Lin, divisor: i128) -> Result<Items<Part>, AllocError>
    requires normal { IsNormal form.now }
    requires positive { pos 0 <ℤ divisor }
    requires within { FitsLimits divisor }
    requires common { IsCommonDivisor (map (λ p. unsigned_abs p.factor) form.now.parts) (unsigned_abs divisor) }
    ensures divided { IfOk result (λ parts. AreDivided (unsigned_abs divisor) form.now.parts parts) }
    ensures normal { IfOk result (λ parts. IsNormal (record { den = pos 1; parts = parts; constant = pos 0 })) }
{
    let factors = Lin {
        den: divisor,
        parts: Items::from_slice(alloc, form.parts.as_slice())?,
        constant: 0,
    };
    let Lin {
        den: _,
        parts,
        constant: _,
    } = divide(alloc, &factors, divisor)?;
    Ok(parts)
}

/// The quotient of two numbers, rounded down.
#[tactic(auto, using(ae_numeric::proofs::FloorLaws::floor_quotient))]
fn floor_of(number: i128, divisor: i128) -> i128
    requires { pos 0 <ℤ divisor }
    ensures { IsFloor number (unsigned_abs divisor) result }
{
    number.div_euclid(divisor)
}

/// A number, less 1 where the row is strict.
fn slack_of(number: i128, strict: bool) -> i128
    requires fits { FitsLimits number }
    ensures { result ≡ cond strict (number -ℤ pos 1) number }
{
    if strict { number - 1 } else { number }
}

/// The row over integers `form >= 0`, or `form > 0` where `strict`, rounded: without its denominator, its factors divided
/// by their greatest common divisor, and its constant, less 1 where the row is strict, divided by it and rounded down.
///
/// `None` where the constant leaves the limits.
pub fn rounded(alloc: Global, form: &Lin, strict: bool) -> Result<Option<Lin>, AllocError>
    requires normal { IsNormal form.now }
    requires names { form.now.parts ≢ [] }
    ensures exact { IfOk result (λ found. IfSome found (λ row. IsRounded strict form.now row)) }
    ensures normal { IfOk result (λ found. IfSome found (λ row. IsNormal row)) }
    ensures none { IfOk result (λ found. IfNone found (IsOutside strict form.now)) }
{
    let divisor = common_factor(alloc, form)?;
    let constant = floor_of(slack_of(form.constant, strict), divisor);
    if !is_within(constant) {
        return Ok(None);
    }
    let parts = quotients(alloc, form, divisor)?;
    Ok(Some(Lin {
        den: 1,
        parts,
        constant,
    }))
}
