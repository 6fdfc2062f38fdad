//! The rows of a tight sum.
ghost use Rattle.std.specs.Prelude.{◌≡◌, ◌<◌, ◌+◌, ◌∷◌, ◌++◌, [], ℕ, true, false, length, slice_get, Some, IfOk, OnOk};
ghost use Rattle.ae_bounds.specs.declared.rows.Row.{Row as RowValue};
ghost use Rattle.ae_bounds.specs.Findings.{AreFounded, IsTightAt};
ghost use Rattle.ae_bound_blocks.specs.Tight.{IsGivenRow, AreTight};
ghost use Rattle.ae_bound_blocks.specs.Inner.Listed.{AreListed};

use crate::ancestors::ancestors;
use ae_bounds::rows::{Origin, Row};
use ae_core::lists::List;
use std::alloc::{AllocError, Global};

/// Whether a row was assumed, or rounded.
fn is_given(row: &Row) -> bool
    ensures yes { result ≡ true → IsGivenRow row.now }
    ensures no { result ≡ false → IsGivenRow row.now → ⊥ }
{
    match row.from {
        Origin::Assumed(_) => true,
        Origin::Combined { .. } => row.unrounded.is_some(),
    }
}

/// The same of the row of this number.
fn is_given_at(rows: &[Row], place: usize) -> bool
    requires { place < length rows.now }
    ensures yes { (r : RowValue) → slice_get rows.now place ≡ Some r → result ≡ true → IsGivenRow r }
    ensures no { (r : RowValue) → slice_get rows.now place ≡ Some r → result ≡ false → IsGivenRow r → ⊥ }
{
    let row = &rows[place];
    is_given(row)
}

/// Adds the number of a row, where that row is marked and was assumed or rounded.
fn list_row(
    rows: &[Row],
    marks: &[bool],
    place: usize,
    numbers: &mut List<usize>,
) -> Result<(), AllocError>
    requires place { place < length rows.now }
    requires size { length marks.now ≡ length rows.now }
    requires listed { AreListed rows.now marks.now place numbers.old }
    ensures { OnOk result (AreListed rows.now marks.now (place + 1) numbers.new) }
{
    let is_marked = marks[place];
    if is_marked {
        if is_given_at(rows, place) {
            numbers.push(place)?;
        }
    }
    Ok(())
}

/// The numbers of the marked rows that were assumed or rounded.
fn listed(alloc: Global, rows: &[Row], marks: &[bool]) -> Result<List<usize>, AllocError>
    requires size { length marks.now ≡ length rows.now }
    ensures { IfOk result (λ numbers. AreListed rows.now marks.now (length rows.now) numbers) }
{
    let mut numbers = List::new(alloc);
    for place in 0..rows.len() {
        list_row(rows, marks, place, &mut numbers)?;
    }
    Ok(numbers)
}

/// The numbers of the rows, assumed or rounded, of which a positive sum is the combination of this number, which is 0.
pub fn tight(alloc: Global, rows: &[Row], place: usize) -> Result<List<usize>, AllocError>
    requires founded { AreFounded rows.now }
    requires tight { IsTightAt rows.now place }
    ensures { IfOk result (λ numbers. AreTight rows.now numbers) }
{
    let first = &rows[..place + 1];
    let marks = ancestors(alloc, first, false)?;
    listed(alloc, first, &marks)
}
