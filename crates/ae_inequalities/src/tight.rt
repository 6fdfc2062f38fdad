//! The rows of a tight sum, with lines that say them.
ghost use Rattle.std.specs.Prelude.{◌≡◌, ◌<◌, ◌∷◌, ◌++◌, [], ℕ, length, slice_get, IfOk};
ghost use Rattle.std.specs.List.{AllByRecursion};
ghost use Rattle.ae_num.specs.Forms.{IsNormal};
ghost use Rattle.ae_theory.specs.Names.{terms_in};
ghost use Rattle.ae_bounds.specs.Rounding.{AreRounded};
ghost use Rattle.ae_bounds.specs.Findings.{AreFounded};
ghost use Rattle.ae_bound_blocks.specs.Tight.{AreTight};
ghost use Rattle.ae_bound_solve.specs.Given.{AreAllGiven, AreOpaqueNames};
ghost use Rattle.ae_inequalities.specs.Tight.{IsRowAt, AreTightRows};

use crate::rows::Row;
use crate::tagging::joined;
use ae_bound_blocks::given::Given;
use ae_bound_solve::derived::derive_row;
use ae_bounds::rows::Row as Kept;
use ae_core::lists::List;
use ae_num::copies::copied;
use ae_num::forms::Lin;
use ae_store::store::Store;
use ae_theory::theory::Derived;
use std::alloc::{AllocError, Global};

/// A kept row, with a copy of its form, the lines that say it and their tags.
fn row_with(kept: &Kept, lin: Lin, lines: Given, tags: List<usize>) -> Row
    ensures { result ≡ record { lin = lin; strict = kept.now.strict; integral = kept.now.integral; multiple = lines.multiple; real = lines.real; from = record { deriv = lines.deriv; tags = tags } } }
{
    let Given {
        deriv,
        multiple,
        real,
    } = lines;
    Row {
        lin,
        strict: kept.strict,
        integral: kept.integral,
        multiple,
        real,
        from: Derived { deriv, tags },
    }
}

/// The kept row of this number, with lines that say it.
fn row_at(
    alloc: Global,
    store: &Store,
    rows: &[Kept],
    given: &[Given],
    tags: &[List<usize>],
    place: usize,
) -> Result<Row, AllocError>
    requires normal { AllByRecursion (λ row. IsNormal row.lin) rows.now }
    requires founded { AreFounded rows.now }
    requires were_rounded { AreRounded rows.now }
    requires given { AreAllGiven store.now.signature (terms_in store.now) rows.now given.now }
    requires opaque { AreOpaqueNames (terms_in store.now) rows.now }
    requires place { place < length rows.now }
    ensures { IfOk result (λ row. IsRowAt store.now (record { rows = rows.now; given = given.now; tags = tags.now }) place row) }
{
    let grounds = derive_row(alloc, store, rows, place, given)?;
    let own = joined(alloc, tags, grounds.tags.as_slice())?;
    let kept = &rows[place];
    let lin = copied(alloc, &kept.lin)?;
    Ok(row_with(kept, lin, grounds.given, own))
}

/// The rows of a tight sum, by their numbers.
pub fn rows_at(
    alloc: Global,
    store: &Store,
    rows: &[Kept],
    given: &[Given],
    tags: &[List<usize>],
    numbers: &[usize],
) -> Result<List<Row>, AllocError>
    requires normal { AllByRecursion (λ row. IsNormal row.lin) rows.now }
    requires founded { AreFounded rows.now }
    requires were_rounded { AreRounded rows.now }
    requires given { AreAllGiven store.now.signature (terms_in store.now) rows.now given.now }
    requires opaque { AreOpaqueNames (terms_in store.now) rows.now }
    requires tight { AreTight rows.now numbers.now }
    ensures { IfOk result (λ all. AreTightRows store.now (record { rows = rows.now; given = given.now; tags = tags.now }) all) }
{
    let mut all = List::new(alloc);
    for number in numbers {
        let row = row_at(alloc, store, rows, given, tags, *number)?;
        all.push(row)?;
    }
    Ok(all)
}
