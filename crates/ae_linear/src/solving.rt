//! Equations between linear forms, solved for their largest name.
ghost use Rattle.std.specs.Prelude.{◌≡◌, ◌≢◌, None, Some, pos, negsuc, [], ◌<ℤ◌, IfOk, OnOk, IfErr, IfSome, IfNone};
ghost use Rattle.std.specs.List.{AllByRecursion};
ghost use Rattle.ae_math.specs.Forms.{minus};
ghost use Rattle.ae_num.specs.Limits.{FitsLimits};
ghost use Rattle.ae_num.specs.Forms.{meaning, SameMeaning, IsNormal, IsRising, first_wide, IfWide, difference_of, difference_steps};
ghost use Rattle.ae_linear.specs.Solving.{IsLargest, IsSolved, FitsScaling, IsWideScaling, IsWideSolving, negated_inverse};

use ae_num::differences::{difference, rest_of};
use ae_num::forms::{Lin, Name, Part, fraction, scale};
use ae_num::numbers::NumFail;
use std::alloc::Global;

/// What an equation between two linear forms comes to.
#[derive(Debug, Drop)]
pub enum Solved {
    /// The sides are equal.
    Trivial,
    /// The sides differ by a number other than 0.
    Bottom,
    /// The largest name of the difference, and its value.
    Rule { name: Name, value: Lin },
}

/// The part of the largest name.
fn largest(parts: &[Part]) -> Option<Part>
    requires rising { IsRising parts.now }
    requires nonzero { AllByRecursion (λ p. p.factor ≢ pos 0) parts.now }
    ensures some { IfSome result (λ p. IsLargest parts.now p) }
    ensures none { IfNone result (parts.now ≡ []) }
{
    if parts.is_empty() {
        return None;
    }
    Some(parts[parts.len() - 1])
}

/// The number `-den / factor`.
fn inverse(alloc: Global, den: i128, factor: i128) -> Lin
    requires den { pos 0 <ℤ den }
    requires factor { factor ≢ pos 0 }
    requires den_within { FitsLimits den }
    requires factor_within { FitsLimits factor }
    ensures form { result ≡ negated_inverse den factor }
    ensures normal { IsNormal result }
{
    if factor < 0 {
        fraction(alloc, den, -factor)
    } else {
        fraction(alloc, -den, factor)
    }
}

/// What the equation of a form with 0 comes to.
///
/// `Wide` comes exactly where the multiple of the form without its largest name leaves the limits.
pub fn solution(alloc: Global, form: &Lin) -> Result<Solved, NumFail>
    requires { IsNormal form.now }
    ensures exact { IfOk result (λ s. IsSolved (meaning form.now) s) }
    ensures fits { IfOk result (λ s. FitsScaling form.now s) }
    ensures wide { IfErr result (λ fail. IfWide fail (λ wide. IsWideScaling form.now wide)) }
{
    let Some(part) = largest(form.parts.as_slice()) else {
        if form.constant == 0 {
            return Ok(Solved::Trivial);
        }
        return Ok(Solved::Bottom);
    };
    let rest = rest_of(alloc, form, part.key)?;
    let by = inverse(alloc, form.den, part.factor);
    let value = scale(alloc, by.constant, by.den, &rest)?;
    Ok(Solved::Rule {
        name: part.key,
        value,
    })
}

/// What an equation between two forms comes to: `Trivial` where they are equal, `Bottom` where they differ by a
/// number other than 0, and otherwise the value of the largest name of their difference.
///
/// `Wide` comes exactly at the first stated product or sum that leaves the limits: those of the difference, and
/// then those of its multiple.
pub fn solve(alloc: Global, left: &Lin, right: &Lin) -> Result<Solved, NumFail>
    requires left { IsNormal left.now }
    requires right { IsNormal right.now }
    ensures exact { IfOk result (λ s. IsSolved (minus (meaning left.now) (meaning right.now)) s) }
    ensures fits { OnOk result (first_wide (difference_steps left.now right.now) ≡ None) }
    ensures scaled { IfOk result (λ s. FitsScaling (difference_of left.now right.now) s) }
    ensures wide { IfErr result (λ fail. IfWide fail (λ wide. IsWideSolving left.now right.now wide)) }
{
    let form = difference(alloc, left, right)?;
    solution(alloc, &form)
}
