//! Rows over integers that were rounded by hand.

ghost use Rattle.std.specs.Prelude.{IfOk, pos, ◌<ℤ◌};
ghost use Rattle.ae_num.specs.Forms.{IsNormal};

use ae_num::forms::{Lin, one, plus, scale, single};
use ae_num::numbers::NumFail;
use ae_rounding::rounding::rounded;
use std::alloc::{AllocError, Global};
use std::test::Fail;

/// `first / den` times name 0, and `second / den` times name 1, and `constant / den`.
fn row(alloc: Global, first: i128, second: i128, constant: i128, den: i128) -> Result<Lin, NumFail>
    requires { pos 0 <ℤ den }
    ensures { IfOk result (λ form. IsNormal form) }
{
    let names = plus(
        alloc,
        &scale(alloc, first, den, &single(alloc, 0)?)?,
        &scale(alloc, second, den, &single(alloc, 1)?)?,
    )?;
    plus(alloc, &names, &scale(alloc, constant, den, &one(alloc))?)
}

/// The row rounded; `None` for one without names.
fn rounded_row(alloc: Global, form: &Lin, strict: bool) -> Result<Option<Lin>, AllocError>
    requires { IsNormal form.now }
{
    if form.parts.is_empty() {
        return Ok(None);
    }
    rounded(alloc, form, strict)
}

/// Whether the row is `first` times name 0, and `second` times name 1, and the constant.
fn is_row(form: &Lin, first: i128, second: i128, constant: i128) -> bool {
    let parts = form.parts.as_slice();
    form.den == 1
        && form.constant == constant
        && parts.len() == 2
        && parts[0].factor == first
        && parts[1].factor == second
}

#[test]
fn over_a_denominator_and_with_negative_factors(rt: HostRuntime) -> Result<(), Fail> {
    let alloc = rt.alloc();
    let over_five = row(alloc, 2, 4, -3, 5)?;
    let falling = row(alloc, -4, 6, 5, 1)?;
    assert!(rt;
        matches!(rounded_row(alloc, &over_five, false)?, Some(form) if is_row(&form, 1, 2, -2))
    );
    assert!(rt;
        matches!(rounded_row(alloc, &falling, false)?, Some(form) if is_row(&form, -2, 3, 2))
    );
    Ok(())
}

#[test]
fn three_times_a_name_above_zero(rt: HostRuntime) -> Result<(), Fail> {
    let alloc = rt.alloc();
    let strict = row(alloc, 3, 0, 0, 1)?;
    match rounded_row(alloc, &strict, true)? {
        Some(form) => {
            let parts = form.parts.as_slice();
            assert!(rt; form.den == 1 && form.constant == -1);
            assert!(rt; parts.len() == 1 && parts[0].key == 0 && parts[0].factor == 1);
        }
        None => assert!(rt; false),
    }
    Ok(())
}

#[test]
fn a_strict_row_at_the_limit(rt: HostRuntime) -> Result<(), Fail> {
    let alloc = rt.alloc();
    let last = row(alloc, 1, 0, -i128::MAX, 1)?;
    assert!(rt; matches!(rounded_row(alloc, &last, false)?, Some(_)));
    assert!(rt; matches!(rounded_row(alloc, &last, true)?, None));
    Ok(())
}
