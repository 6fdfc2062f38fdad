//! Systems of rows, and what they come to when all combinations were noted.

ghost use Rattle.std.specs.Prelude.{IfOk};
ghost use Rattle.ae_num.specs.Forms.{IsNormal};

use ae_bounds::bounds::Bounds;
use ae_bounds::finding::Found;
use ae_bounds::rows::Row;
use ae_journal::journal::Journal;
use ae_num::forms::{Lin, Name, one, plus, scale, single};
use ae_num::numbers::NumFail;
use ae_theory::theory::Fail as BoundsFail;
use std::alloc::Global;
use std::test::Fail;

/// `first * x + second * y + constant > 0`, or `>= 0` where not `strict`; over integers where `integral`.
#[derive(Clone, Copy)]
struct Given {
    first: i128,
    x: Name,
    second: i128,
    y: Name,
    constant: i128,
    strict: bool,
    integral: bool,
}

/// What a system comes to, with the number of its rows and lines, and the constant of its last row.
#[derive(Clone, Copy, Debug, PartialEq, Eq)]
enum Outcome {
    Came {
        found: Found,
        rows: usize,
        lines: usize,
        last: i128,
    },
    Full(usize),
    Wide(usize),
}

/// `factor * name`.
fn term(alloc: Global, factor: i128, name: Name) -> Result<Lin, NumFail>
    ensures { IfOk result (λ form. IsNormal form) }
{
    let name = single(alloc, name)?;
    scale(alloc, factor, 1, &name)
}

/// A form, and `factor * name` more.
fn with_term(alloc: Global, form: &Lin, factor: i128, name: Name) -> Result<Lin, NumFail>
    requires { IsNormal form.now }
    ensures { IfOk result (λ form. IsNormal form) }
{
    let more = term(alloc, factor, name)?;
    plus(alloc, form, &more)
}

/// A form, and a number more.
fn with_number(alloc: Global, form: &Lin, constant: i128) -> Result<Lin, NumFail>
    requires { IsNormal form.now }
    ensures { IfOk result (λ form. IsNormal form) }
{
    let number = scale(alloc, constant, 1, &one(alloc))?;
    plus(alloc, form, &number)
}

/// The form of a row.
fn form_of(alloc: Global, given: Given) -> Result<Lin, NumFail>
    ensures { IfOk result (λ form. IsNormal form) }
{
    let first = term(alloc, given.first, given.x)?;
    let both = with_term(alloc, &first, given.second, given.y)?;
    with_number(alloc, &both, given.constant)
}

/// Assumes a row.
fn assume(alloc: Global, bounds: &mut Bounds, given: Given) -> Result<(), Fail> {
    let form = form_of(alloc, given)?;
    bounds.assume(alloc, form, given.strict, given.integral, true, 7)?;
    Ok(())
}

/// Assumes rows in their order.
fn assume_all(alloc: Global, bounds: &mut Bounds, rows: &[Given]) -> Result<(), Fail> {
    for row in rows {
        assume(alloc, bounds, *row)?;
    }
    Ok(())
}

/// The constant of the last row, 0 where there is none.
fn last_constant(rows: &[Row]) -> i128 {
    if rows.is_empty() {
        return 0;
    }
    rows[rows.len() - 1].lin.constant
}

/// What rows come to after all combinations were noted.
fn come(alloc: Global, bounds: &mut Bounds, journal: &mut Journal) -> Result<Outcome, Fail> {
    match bounds.close(alloc, journal) {
        Ok(()) => Ok(Outcome::Came {
            found: bounds.found(),
            rows: bounds.rows().len(),
            lines: journal.lines().len(),
            last: last_constant(bounds.rows()),
        }),
        Err(BoundsFail::Steps) => Ok(Outcome::Full(bounds.rows().len())),
        Err(BoundsFail::Number(_)) => Ok(Outcome::Wide(bounds.rows().len())),
        Err(BoundsFail::Memory(failed)) => Err(Fail::from(failed)),
    }
}

/// What a system comes to with a journal of so many lines.
fn what_comes(alloc: Global, rows: &[Given], limit: usize) -> Result<Outcome, Fail> {
    let mut bounds = Bounds::new(alloc);
    assume_all(alloc, &mut bounds, rows)?;
    let mut journal = Journal::new(alloc, limit)?;
    come(alloc, &mut bounds, &mut journal)
}

/// The same where all combinations were noted before.
fn what_comes_again(alloc: Global, rows: &[Given], limit: usize) -> Result<Outcome, Fail> {
    let mut bounds = Bounds::new(alloc);
    assume_all(alloc, &mut bounds, rows)?;
    let mut journal = Journal::new(alloc, limit)?;
    come(alloc, &mut bounds, &mut journal)?;
    come(alloc, &mut bounds, &mut journal)
}

/// `x <= y + constant`, or strictly, over fractions.
fn at_most(x: Name, y: Name, constant: i128, strict: bool) -> Given {
    Given {
        first: 1,
        x: y,
        second: -1,
        y: x,
        constant,
        strict,
        integral: false,
    }
}

/// `factor * name + constant > 0`.
fn above(factor: i128, name: Name, constant: i128, integral: bool) -> Given {
    Given {
        first: factor,
        x: name,
        second: 0,
        y: name,
        constant,
        strict: true,
        integral,
    }
}

/// Each of so many names is below the next, and one more, which is below the first.
fn cycle(alloc: Global, count: usize) -> Result<Outcome, Fail> {
    let mut bounds = Bounds::new(alloc);
    for name in 0..count {
        assume(alloc, &mut bounds, at_most(name, name + 1, 0, true))?;
    }
    assume(alloc, &mut bounds, at_most(count, 0, 0, true))?;
    let mut journal = Journal::new(alloc, 1_000)?;
    come(alloc, &mut bounds, &mut journal)
}

/// `x0 < x1`, `x1 <= x2` and `x2 <= x0 + 3`.
fn chain() -> [Given; 3] {
    [
        at_most(0, 1, 0, true),
        at_most(1, 2, 0, false),
        at_most(2, 0, 3, false),
    ]
}

/// `x1 <= x2` and `x2 <= x0 + 3` give `x1 <= x0 + 3`, and that with `x0 < x1` gives `3 > 0`.
#[test]
fn a_chain_is_noted_once(rt: HostRuntime) -> Result<(), Fail> {
    let rows = chain();
    let expected = Outcome::Came {
        found: Found::Open,
        rows: 5,
        lines: 2,
        last: 3,
    };
    assert!(rt; what_comes(rt.alloc(), &rows, 10)? == expected);
    assert!(rt; what_comes_again(rt.alloc(), &rows, 10)? == expected);
    assert!(rt; what_comes(rt.alloc(), &rows, 2)? == expected);
    assert!(rt; what_comes(rt.alloc(), &rows, 1)? == Outcome::Full(4));
    Ok(())
}

/// `x < y` and `y < x`.
#[test]
fn there_and_back_strictly_is_a_contradiction(rt: HostRuntime) -> Result<(), Fail> {
    let rows = [at_most(0, 1, 0, true), at_most(1, 0, 0, true)];
    let expected = Outcome::Came {
        found: Found::Contradiction(2),
        rows: 3,
        lines: 1,
        last: 0,
    };
    assert!(rt; what_comes(rt.alloc(), &rows, 10)? == expected);
    Ok(())
}

/// `x0 < x1` and `x1 < x0`, and behind them `x1 <= x2` and `x2 <= x0 + 3`: no combination is noted behind the contradiction.
#[test]
fn a_contradiction_ends_it(rt: HostRuntime) -> Result<(), Fail> {
    let rows = [
        at_most(0, 1, 0, true),
        at_most(1, 0, 0, true),
        at_most(1, 2, 0, false),
        at_most(2, 0, 3, false),
    ];
    let expected = Outcome::Came {
        found: Found::Contradiction(4),
        rows: 5,
        lines: 1,
        last: 0,
    };
    assert!(rt; what_comes(rt.alloc(), &rows, 10)? == expected);
    assert!(rt; what_comes_again(rt.alloc(), &rows, 10)? == expected);
    assert!(rt; what_comes(rt.alloc(), &rows, 1)? == expected);
    Ok(())
}

/// `x0 < x1`, `x1 < x0`, and `-1 > 0`: no combination is noted.
#[test]
fn an_assumed_contradiction_comes_first(rt: HostRuntime) -> Result<(), Fail> {
    let rows = [
        at_most(0, 1, 0, true),
        at_most(1, 0, 0, true),
        above(0, 0, -1, false),
    ];
    let expected = Outcome::Came {
        found: Found::Contradiction(2),
        rows: 3,
        lines: 0,
        last: -1,
    };
    assert!(rt; what_comes(rt.alloc(), &rows, 10)? == expected);
    Ok(())
}

/// `x <= y` and `y <= x`.
#[test]
fn there_and_back_is_tight(rt: HostRuntime) -> Result<(), Fail> {
    let rows = [at_most(0, 1, 0, false), at_most(1, 0, 0, false)];
    let expected = Outcome::Came {
        found: Found::Tight(2),
        rows: 3,
        lines: 1,
        last: 0,
    };
    assert!(rt; what_comes(rt.alloc(), &rows, 10)? == expected);
    Ok(())
}

/// Ten and a hundred names in a circle, each below the next: one line for each name but one.
#[test]
fn cycles_are_contradictions(rt: HostRuntime) -> Result<(), Fail> {
    let ten = cycle(rt.alloc(), 9)?;
    assert!(rt;
        matches!(
            ten,
            Outcome::Came {
                found: Found::Contradiction(_),
                lines: 9,
                ..
            }
        )
    );
    let hundred = cycle(rt.alloc(), 99)?;
    assert!(rt;
        matches!(
            hundred,
            Outcome::Came {
                found: Found::Contradiction(_),
                lines: 99,
                ..
            }
        )
    );
    Ok(())
}

/// `0 < 3 * n` and `n < 1`: over integers, rounded, `n - 1 >= 0` and `-n >= 0`.
#[test]
fn nothing_is_between_two_integers(rt: HostRuntime) -> Result<(), Fail> {
    let whole = [above(3, 0, 0, true), above(-1, 0, 1, true)];
    let expected = Outcome::Came {
        found: Found::Contradiction(2),
        rows: 3,
        lines: 1,
        last: -1,
    };
    assert!(rt; what_comes(rt.alloc(), &whole, 10)? == expected);
    let fractions = [above(3, 0, 0, false), above(-1, 0, 1, false)];
    let open = Outcome::Came {
        found: Found::Open,
        rows: 3,
        lines: 1,
        last: 3,
    };
    assert!(rt; what_comes(rt.alloc(), &fractions, 10)? == open);
    Ok(())
}

/// `first * x + second * y + constant >= 0` over integers.
fn whole(first: i128, x: Name, second: i128, y: Name, constant: i128) -> Given {
    Given {
        first,
        x,
        second,
        y,
        constant,
        strict: false,
        integral: true,
    }
}

/// `2 * x + 3 * z >= 0` and `2 * y - 3 * z + 1 >= 0` over integers: `6 * x + 6 * y + 3 >= 0` is kept as `x + y >= 0`.
#[test]
fn a_combination_is_rounded(rt: HostRuntime) -> Result<(), Fail> {
    let rows = [whole(2, 0, 3, 2, 0), whole(2, 1, -3, 2, 1)];
    let expected = Outcome::Came {
        found: Found::Open,
        rows: 3,
        lines: 1,
        last: 0,
    };
    assert!(rt; what_comes(rt.alloc(), &rows, 10)? == expected);
    Ok(())
}

/// `first * x + second * y >= 0` over fractions.
fn plain(first: i128, x: Name, second: i128, y: Name) -> Given {
    Given {
        first,
        x,
        second,
        y,
        constant: 0,
        strict: false,
        integral: false,
    }
}

/// `10^38 * y - x >= 0` and `10^38 * x - y >= 0`: their combination leaves the limits.
#[test]
fn numbers_end_it(rt: HostRuntime) -> Result<(), Fail> {
    let large = 100_000_000_000_000_000_000_000_000_000_000_000_000;
    let rows = [plain(large, 1, -1, 0), plain(-1, 1, large, 0)];
    assert!(rt; what_comes(rt.alloc(), &rows, 10)? == Outcome::Wide(2));
    Ok(())
}
