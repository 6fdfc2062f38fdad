//! Points that were computed by hand, a tight sum, contradictions, and a combination outside the limits.

ghost use Rattle.std.specs.Prelude.{IfOk};
ghost use Rattle.ae_num.specs.Forms.{IsNormal};

use ae_ineq::solving::{Answer, Inequality, solve};
use ae_num::forms::{Name, one, plus, scale, single};
use ae_num::numbers::NumFail;
use std::alloc::Global;
use std::test::Fail;

const TWO_TO_100: i128 = 1 << 100;

/// `first * x + second * y + constant`, at least 0 or, where `strict`, above it.
fn two_names(
    alloc: Global,
    x: (i128, Name),
    y: (i128, Name),
    constant: i128,
    strict: bool,
) -> Result<Inequality, NumFail>
    ensures { IfOk result (λ row. IsNormal row.lin) }
{
    let left = scale(alloc, x.0, 1, &single(alloc, x.1)?)?;
    let right = scale(alloc, y.0, 1, &single(alloc, y.1)?)?;
    let number = scale(alloc, constant, 1, &one(alloc))?;
    let lin = plus(alloc, &plus(alloc, &left, &right)?, &number)?;
    Ok(Inequality { lin, strict })
}

#[test]
fn a_mean_and_a_number_beyond_a_bound(rt: HostRuntime) -> Result<(), Fail> {
    let alloc = rt.alloc();
    let rows = [
        two_names(alloc, (1, 0), (0, 1), -1, false)?,
        two_names(alloc, (-1, 0), (0, 1), 2, true)?,
        two_names(alloc, (1, 1), (-2, 0), 0, false)?,
    ];
    match solve(alloc, &rows)? {
        Answer::Point(made) => {
            let point = made.as_slice();
            assert!(rt; point.len() == 2);
            assert!(rt; point[0].name == 0 && point[0].top == 3 && point[0].bottom == 2);
            assert!(rt; point[1].name == 1 && point[1].top == 4 && point[1].bottom == 1);
        }
        _ => assert!(rt; false),
    }
    Ok(())
}

#[test]
fn below_and_above(rt: HostRuntime) -> Result<(), Fail> {
    let alloc = rt.alloc();
    let below = two_names(alloc, (-1, 0), (1, 1), 0, true)?;
    let above = two_names(alloc, (1, 0), (-1, 1), 0, true)?;
    assert!(rt; matches!(solve(alloc, &[below, above])?, Answer::Contradiction));
    Ok(())
}

#[test]
fn at_most_and_at_least(rt: HostRuntime) -> Result<(), Fail> {
    let alloc = rt.alloc();
    let at_most = two_names(alloc, (-1, 0), (1, 1), 0, false)?;
    let at_least = two_names(alloc, (1, 0), (-1, 1), 0, false)?;
    assert!(rt; matches!(solve(alloc, &[at_most, at_least])?, Answer::Tight));
    Ok(())
}

#[test]
fn a_product_outside_the_limits(rt: HostRuntime) -> Result<(), Fail> {
    let alloc = rt.alloc();
    let lower = two_names(alloc, (TWO_TO_100, 1), (1, 0), 0, false)?;
    let upper = two_names(alloc, (1 - TWO_TO_100, 1), (TWO_TO_100, 0), 0, false)?;
    assert!(rt; matches!(solve(alloc, &[lower, upper]), Err(NumFail::Wide(_))));
    Ok(())
}
