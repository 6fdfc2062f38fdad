//! Products and sums at the limits, and forms against forms that were computed by hand.

ghost use Rattle.std.specs.Prelude.{pos, ◌<ℤ◌, IfOk};
ghost use Rattle.ae_num.specs.Forms.{IsNormal};

use ae_num::forms::{Lin, Name, one, plus, scale, single, subst};
use ae_num::numbers::{NumFail, NumOp, Wide, add, gcd, mul};
use std::alloc::Global;
use std::test::Fail;

const LIMIT: i128 = 0x7fff_ffff_ffff_ffff_ffff_ffff_ffff_ffff;

const TWO_TO_62: i128 = 1 << 62;

const TWO_TO_63: i128 = 1 << 63;

const TWO_TO_64: i128 = 1 << 64;

const TWO_TO_126: i128 = 1 << 126;

fn wide(op: NumOp, left: i128, right: i128) -> Wide {
    Wide { op, left, right }
}

#[test]
fn products_at_the_limits(rt: HostRuntime) {
    assert!(rt; mul(TWO_TO_64, TWO_TO_63) == Err(wide(NumOp::Mul, TWO_TO_64, TWO_TO_63)));
    assert!(rt; mul(TWO_TO_64, TWO_TO_62) == Ok(TWO_TO_126));
    assert!(rt; mul(LIMIT, -1) == Ok(-LIMIT));
    assert!(rt; mul(-TWO_TO_64, TWO_TO_63) == Err(wide(NumOp::Mul, -TWO_TO_64, TWO_TO_63)));
}

#[test]
fn sums_at_the_limits(rt: HostRuntime) {
    assert!(rt; add(TWO_TO_126, TWO_TO_126 - 1) == Ok(LIMIT));
    assert!(rt; add(TWO_TO_126, TWO_TO_126) == Err(wide(NumOp::Add, TWO_TO_126, TWO_TO_126)));
    assert!(rt; add(-TWO_TO_126, 1 - TWO_TO_126) == Ok(-LIMIT));
    assert!(rt; add(-LIMIT, -1) == Err(wide(NumOp::Add, -LIMIT, -1)));
    assert!(rt; add(LIMIT, 0) == Ok(LIMIT));
}

#[test]
fn divisors(rt: HostRuntime) {
    assert!(rt; gcd(12, -18) == 6);
    assert!(rt; gcd(0, -LIMIT) == LIMIT);
    assert!(rt; gcd(0, 0) == 0);
}

/// `constant / den + sum of factor / den * key`, made by sums and multiples.
fn form(alloc: Global, den: i128, parts: &[(Name, i128)], constant: i128) -> Result<Lin, NumFail>
    requires { pos 0 <ℤ den }
    ensures { IfOk result (λ form. IsNormal form) }
{
    let mut sum = scale(alloc, constant, den, &one(alloc))?;
    for (key, factor) in parts {
        let part = scale(alloc, *factor, den, &single(alloc, *key)?)?;
        sum = plus(alloc, &sum, &part)?;
    }
    Ok(sum)
}

fn is_form(form: &Lin, den: i128, parts: &[(Name, i128)], constant: i128) -> bool {
    let found = form.parts.as_slice();
    if form.den != den || form.constant != constant || found.len() != parts.len() {
        return false;
    }
    for i in 0..found.len() {
        if found[i].key != parts[i].0 || found[i].factor != parts[i].1 {
            return false;
        }
    }
    true
}

#[test]
fn sums(rt: HostRuntime) -> Result<(), Fail> {
    let alloc = rt.alloc();
    // x1/2 + 1/3 and x1/2 - x2
    let left = form(alloc, 6, &[(1, 3)], 2)?;
    let right = form(alloc, 2, &[(1, 1), (2, -2)], 0)?;
    assert!(rt; is_form(&left, 6, &[(1, 3)], 2));
    assert!(rt; is_form(&right, 2, &[(1, 1), (2, -2)], 0));
    assert!(rt; is_form(&plus(alloc, &left, &right)?, 3, &[(1, 3), (2, -3)], 1));
    // 2 * x0 + 3 and -2 * x0 - 3
    let left = form(alloc, 1, &[(0, 2)], 3)?;
    let right = form(alloc, 1, &[(0, -2)], -3)?;
    assert!(rt; is_form(&plus(alloc, &left, &right)?, 1, &[], 0));
    Ok(())
}

#[test]
fn multiples(rt: HostRuntime) -> Result<(), Fail> {
    let alloc = rt.alloc();
    // (3 * x1 + 6 * x4 + 9) / 4 times 2/3, and times 0
    let of = form(alloc, 4, &[(4, 6), (1, 3)], 9)?;
    assert!(rt; is_form(&scale(alloc, 2, 3, &of)?, 2, &[(1, 1), (4, 2)], 3));
    assert!(rt; is_form(&scale(alloc, 0, 3, &of)?, 1, &[], 0));
    Ok(())
}

#[test]
fn wide_denominators(rt: HostRuntime) -> Result<(), Fail> {
    let alloc = rt.alloc();
    // the sum of x1 / 2^64 and x2 / 2^64 has the denominator 2^64, and 2^128 is stated
    let left = form(alloc, TWO_TO_64, &[(1, 1)], 0)?;
    let right = form(alloc, TWO_TO_64, &[(2, 1)], 0)?;
    match plus(alloc, &left, &right) {
        Err(NumFail::Wide(found)) => {
            assert!(rt; found == wide(NumOp::Mul, TWO_TO_64, TWO_TO_64));
        }
        _ => assert!(rt; false),
    }
    Ok(())
}

#[test]
fn substitutions(rt: HostRuntime) -> Result<(), Fail> {
    let alloc = rt.alloc();
    // in (2 * x1 + x3 + 5) / 3 the forms 1 and x3 for x1, and 1 for a name that isn't there
    let into = form(alloc, 3, &[(1, 2), (3, 1)], 5)?;
    assert!(rt; is_form(&subst(alloc, &into, 1, &one(alloc))?, 3, &[(3, 1)], 7));
    assert!(rt;
        is_form(
            &subst(alloc, &into, 1, &single(alloc, 3)?)?,
            3,
            &[(3, 3)],
            5
        )
    );
    assert!(rt;
        is_form(
            &subst(alloc, &into, 2, &one(alloc))?,
            3,
            &[(1, 2), (3, 1)],
            5
        )
    );
    Ok(())
}
