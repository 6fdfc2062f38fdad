//! The rows that count in a journal.

ghost use Rattle.std.specs.Prelude.{◌≡◌, [], ◌∷◌, ◌++◌, map, OnOk, IfOk, None};
ghost use Rattle.std.specs.List.{AllByRecursion};
ghost use Rattle.ae_num.specs.Forms.{IsNormal};
ghost use Rattle.ae_bounds.specs.Rounding.{AreRounded};
ghost use Rattle.ae_bounds.specs.Inner.Directions.{AreIndexed};
ghost use Rattle.ae_bound_rest.specs.Inner.Pairs.{AreCounted};
ghost use Rattle.ae_bound_rest.specs.Rest.{plain as plain_row, counted};

use ae_bounds::directions::{Direction, direction_of};
use ae_bounds::noting::add_assumed;
use ae_bounds::rows::{Origin, Row};
use ae_num::copies::copied;
use ae_num::forms::Lin;
use indexmap::IndexSet;
use sqlite_items::Items;
use std::alloc::{AllocError, Global};

/// A row of a form that isn't rounded.
pub fn plain(lin: Lin, strict: bool, integral: bool, counts: bool) -> Row
    ensures { result ≡ plain_row lin strict integral counts }
{
    Row {
        lin,
        strict,
        integral,
        unrounded: None,
        counts,
        from: Origin::Assumed(0),
    }
}

/// A row with a copy of a form.
pub fn with_form(
    alloc: Global,
    form: &Lin,
    strict: bool,
    integral: bool,
    counts: bool,
) -> Result<Row, AllocError>
    ensures { IfOk result (λ row. row ≡ plain_row form.now strict integral counts) }
{
    let lin = copied(alloc, form)?;
    Ok(plain(lin, strict, integral, counts))
}

/// The row that counts for a kept one.
fn counted_row(alloc: Global, row: &Row) -> Result<Row, AllocError>
    ensures { IfOk result (λ made. made ≡ counted row.now) }
{
    match (row.from, &row.unrounded) {
        (Origin::Assumed(_), Some(earlier)) => {
            with_form(
                alloc,
                &earlier.lin,
                earlier.strict,
                row.integral,
                row.counts,
            )
        }
        (Origin::Assumed(_), None) => {
            with_form(alloc, &row.lin, row.strict, row.integral, row.counts)
        }
        (Origin::Combined { .. }, _) => {
            with_form(alloc, &row.lin, row.strict, row.integral, true)
        }
    }
}

/// Adds a row, with its direction where it counts.
fn enter(
    alloc: Global,
    sure: &mut Items<Row>,
    directions: &mut IndexSet<Direction>,
    row: Row,
) -> Result<(), AllocError>
    requires normal { IsNormal row.lin }
    requires plain { row.unrounded ≡ None }
    requires indexed { AreIndexed sure.old directions.old.keys }
    ensures added { OnOk result (sure.new ≡ sure.old ++ row ∷ []) }
    ensures indexed { OnOk result (AreIndexed sure.new directions.new.keys) }
{
    let direction = direction_of(alloc, &row.lin)?;
    add_assumed(sure, directions, row, direction, None)
}

/// Adds the rows that count for kept ones.
pub fn start(
    alloc: Global,
    rows: &[Row],
    sure: &mut Items<Row>,
    directions: &mut IndexSet<Direction>,
) -> Result<(), AllocError>
    requires normal { AllByRecursion (λ row. IsNormal row.lin) rows.now }
    requires rounded { AreRounded rows.now }
    requires none { sure.old ≡ [] }
    requires directions { directions.old.keys ≡ [] }
    ensures started { OnOk result (sure.new ≡ map counted rows.now) }
    ensures counted { OnOk result (AreCounted sure.new directions.new.keys) }
{
    for row in rows {
        let made = counted_row(alloc, row)?;
        enter(alloc, sure, directions, made)?;
    }
    Ok(())
}
