//! Worked numbers: equations and rows, also at the limits, and versions.
ghost use Rattle.std.specs.Prelude.{◌≡◌, ◌<◌, false, IfOk, IsTrue};
ghost use Rattle.ae_num.specs.Forms.{IsNormal, has_key};
ghost use Rattle.ae_linear.specs.Rows.{row_at, IsFree, Lasts};

use ae_linear::{Rows, Solved, solve};
use ae_num::forms::{Lin, Name, Part, one, plus, scale, single, zero};
use ae_num::numbers::{NumFail, NumOp, Wide};
use ae_steps::Steps;
use std::alloc::Global;
use std::marker::Brand;
use std::process::Abort;
use std::sync::ledger::{Blank, Ledger};
use std::test::Fail;

const LIMIT: i128 = 0x7fff_ffff_ffff_ffff_ffff_ffff_ffff_ffff;

const TWO_TO_64: i128 = 1 << 64;

const ODD: i128 = (1 << 63) + 1;

/// A multiple of a name, and a number.
fn form(alloc: Global, name: Name, factor: i128, number: i128) -> Result<Lin, NumFail>
    ensures { IfOk result (λ form. IsNormal form) }
{
    let multiple = scale(alloc, factor, 1, &single(alloc, name)?)?;
    let number = scale(alloc, number, 1, &one(alloc))?;
    plus(alloc, &multiple, &number)
}

fn is_form(form: &Lin, den: i128, parts: &[Part], constant: i128) -> bool {
    form.den == den && form.parts.as_slice() == parts && form.constant == constant
}

fn part(key: Name, factor: i128) -> Part {
    Part { key, factor }
}

/// Whether no name of the value has a row or is the name itself.
fn is_free(rows: &Rows, name: Name, value: &Lin) -> bool
    ensures free { IsTrue result → IsFree (λ n. row_at rows.now n) value.now }
    ensures absent { IsTrue result → has_key value.now.parts name ≡ false }
{
    for part in value.parts.as_slice() {
        if part.key == name || rows.row(part.key).is_some() {
            return false;
        }
    }
    true
}

/// Puts the value, where it may be put.
fn put(rows: &mut Rows, name: Name, value: Lin) -> Result<bool, NumFail>
    requires { IsNormal value }
    ensures { Lasts rows.old rows.new }
{
    if !is_free(rows, name, &value) {
        return Ok(false);
    }
    rows.put(name, value, 0)?;
    Ok(true)
}

fn has_value(rows: &Rows, name: Name, den: i128, parts: &[Part], constant: i128) -> bool {
    match rows.value(name) {
        Some(value) => is_form(value, den, parts, constant),
        None => false,
    }
}

#[test]
fn equations_are_solved_for_their_largest_name(rt: HostRuntime) -> Result<(), Fail> {
    let alloc = rt.alloc();
    let left = form(alloc, 3, 2, 1)?;
    let right = form(alloc, 1, 1, 0)?;
    match solve(alloc, &left, &right)? {
        Solved::Rule { name, value } => {
            assert_eq!(rt; name, 3);
            assert!(rt; is_form(&value, 2, &[part(1, 1)], -1));
        }
        _ => assert!(rt; false),
    }
    assert!(rt; matches!(solve(alloc, &left, &left)?, Solved::Trivial));
    let more = form(alloc, 1, 1, 5)?;
    assert!(rt; matches!(solve(alloc, &right, &more)?, Solved::Bottom));
    Ok(())
}

#[test]
fn equations_at_the_limits(rt: HostRuntime) -> Result<(), Fail> {
    let alloc = rt.alloc();
    let left = form(alloc, 1, 1, LIMIT)?;
    let right = form(alloc, 0, 1, -1)?;
    let sum = Wide {
        op: NumOp::Add,
        left: LIMIT,
        right: 1,
    };
    assert!(rt; matches!(solve(alloc, &left, &right), Err(NumFail::Wide(wide)) if wide == sum));
    let small = scale(alloc, 1, TWO_TO_64, &form(alloc, 1, 1, ODD)?)?;
    let product = Wide {
        op: NumOp::Mul,
        left: ODD,
        right: -TWO_TO_64,
    };
    assert!(rt;
        matches!(solve(alloc, &small, &zero(alloc)), Err(NumFail::Wide(wide)) if wide == product)
    );
    Ok(())
}

/// The sum of rows 5 and 6 leaves the limits at row 6, after row 5 was done.
#[test]
fn a_refused_row_leaves_all_rows(rt: HostRuntime) -> Result<(), Fail> {
    let alloc = rt.alloc();
    let mut rows = Rows::new(alloc);
    assert!(rt; put(&mut rows, 6, form(alloc, 4, 1, LIMIT)?)?);
    assert!(rt; put(&mut rows, 5, form(alloc, 4, 1, 0)?)?);
    let sum = Wide {
        op: NumOp::Add,
        left: LIMIT,
        right: 1,
    };
    assert!(rt; matches!(put(&mut rows, 4, one(alloc)), Err(NumFail::Wide(wide)) if wide == sum));
    assert!(rt; has_value(&rows, 5, 1, &[part(4, 1)], 0));
    assert!(rt; has_value(&rows, 6, 1, &[part(4, 1)], LIMIT));
    assert!(rt; rows.value(4).is_none());
    assert!(rt; put(&mut rows, 4, form(alloc, 3, 1, -1)?)?);
    assert!(rt; has_value(&rows, 5, 1, &[part(3, 1)], -1));
    assert!(rt; has_value(&rows, 6, 1, &[part(3, 1)], LIMIT - 1));
    Ok(())
}

fn there_and_back<L: Ledger>(rt: &impl Abort, alloc: Global, blank: Blank) -> Result<(), Fail>
    requires name { blank.name ≡ L.name }
    requires parts { blank.parts ≡ L.parts }
    requires some { 0 < blank.parts }
{
    let mut steps = Steps::<L>::new(blank);
    let mut rows = Rows::new(alloc);
    assert!(rt; put(&mut rows, 3, form(alloc, 1, 1, 1)?)?);
    assert!(rt; put(&mut rows, 2, form(alloc, 0, 1, 0)?)?);
    let both = plus(alloc, &form(alloc, 3, 1, 0)?, &form(alloc, 2, 2, 0)?)?;
    let canonical = rows.canon(&both)?;
    assert!(rt; is_form(&canonical, 1, &[part(0, 2), part(1, 1)], 1));
    let shared = rows.share(&mut steps);
    let half = scale(alloc, 1, 2, &form(alloc, 0, 1, 0)?)?;
    assert!(rt; put(&mut rows, 1, half)?);
    assert!(rt; has_value(&rows, 3, 2, &[part(0, 1)], 2));
    assert!(rt; has_value(&rows, 2, 1, &[part(0, 1)], 0));
    rows.back(&shared, &mut steps);
    assert!(rt; has_value(&rows, 3, 1, &[part(1, 1)], 1));
    assert!(rt; rows.value(1).is_none());
    Ok(())
}

#[test]
fn each_version_comes_back(rt: HostRuntime) -> Result<(), Fail> {
    there_and_back::<Brand>(&rt, rt.alloc(), Blank::new(1))
}
