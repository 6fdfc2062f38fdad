//! Products, sums and greatest common divisors of numbers from `-(2^127 - 1)` to `2^127 - 1`.

ghost use Rattle.std.specs.Prelude.{◌≡◌, ◌*ℤ◌, ◌+ℤ◌, ◌≤ℤ◌, pos, unsigned_abs, IfOk, OnOk, IfErr, OnErr};
ghost use Rattle.std.specs.Int.{IsGcd};
ghost use Rattle.ae_num.specs.Limits.{FitsLimits};
ghost use Rattle.ae_num.specs.declared.numbers.NumOp.TheVariants.{Mul, Add};
ghost use Rattle.ae_num.specs.declared.numbers.NumFail.TheVariants.{Wide as WideFail, Memory};

use std::alloc::AllocError;

/// What was computed.
#[derive(Clone, Copy, Debug, PartialEq, Eq)]
pub enum NumOp {
    Mul,
    Add,
}

/// A product or a sum of two numbers that is outside the limits.
#[derive(Clone, Copy, Debug, PartialEq, Eq, thiserror::Error)]
#[error("a product or a sum leaves the limits on numbers")]
pub struct Wide {
    pub op: NumOp,
    pub left: i128,
    pub right: i128,
}

/// Why a computation on linear forms has no answer.
#[derive(Clone, Copy, Debug, PartialEq, Eq, thiserror::Error)]
pub enum NumFail {
    /// A product or a sum leaves the limits.
    #[error("a product or a sum leaves the limits on numbers")]
    Wide(Wide),
    /// There was no memory for the form.
    #[error("no memory")]
    Memory(AllocError),
}

impl From<Wide> for NumFail {
    ghost from_gives = { λ w e. e ≡ WideFail w };

    fn from(wide: Wide) -> NumFail {
        NumFail::Wide(wide)
    }
}

impl From<AllocError> for NumFail {
    ghost from_gives = { λ m e. e ≡ Memory m };

    fn from(refused: AllocError) -> NumFail {
        NumFail::Memory(refused)
    }
}

/// The product of two numbers; `Wide` with both where it is outside the limits.
pub fn mul(left: i128, right: i128) -> Result<i128, Wide>
    ensures exact { IfOk result (λ product. product ≡ left *ℤ right) }
    ensures within { OnOk result (FitsLimits (left *ℤ right)) }
    ensures operands { IfErr result (λ wide. wide ≡ record { op = Mul; left = left; right = right }) }
    ensures outside { OnErr result (¬ FitsLimits (left *ℤ right)) }
{
    match left.checked_mul(right) {
        Some(product) if product != i128::MIN => Ok(product),
        _ => Err(Wide {
            op: NumOp::Mul,
            left,
            right,
        }),
    }
}

/// The sum of two numbers; `Wide` with both where it is outside the limits.
pub fn add(left: i128, right: i128) -> Result<i128, Wide>
    ensures exact { IfOk result (λ sum. sum ≡ left +ℤ right) }
    ensures within { OnOk result (FitsLimits (left +ℤ right)) }
    ensures operands { IfErr result (λ wide. wide ≡ record { op = Add; left = left; right = right }) }
    ensures outside { OnErr result (¬ FitsLimits (left +ℤ right)) }
{
    match left.checked_add(right) {
        Some(sum) if sum != i128::MIN => Ok(sum),
        _ => Err(Wide {
            op: NumOp::Add,
            left,
            right,
        }),
    }
}

/// The greatest common divisor of two numbers within the limits, which is 0 for two zeros.
pub fn gcd(left: i128, right: i128) -> i128
    requires left { FitsLimits left }
    requires right { FitsLimits right }
    ensures divisor { IsGcd (unsigned_abs left) (unsigned_abs right) (unsigned_abs result) }
    ensures sign { pos 0 ≤ℤ result }
    ensures within { FitsLimits result }
{
    let mut divisor = left.unsigned_abs();
    let mut rest = right.unsigned_abs();
    'steps: while rest != 0 {
        let remainder = divisor % rest;
        divisor = rest;
        rest = remainder;
    }
    divisor as i128
}
