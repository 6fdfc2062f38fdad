//! The combinations that are left after kept rows were closed.

ghost use Rattle.std.specs.Prelude.{◌≡◌, ◌<◌, ◌≤◌, ◌^◌, true, false, OnOk, IfOk, Err, length, map};
ghost use Rattle.std.specs.List.{AllByRecursion};
ghost use Rattle.ae_num.specs.Forms.{IsNormal};
ghost use Rattle.ae_journal.specs.Journals.{counted_in};
ghost use Rattle.ae_journal.specs.declared.answers.WideAt.{WideAt};
ghost use Rattle.ae_theory.specs.declared.theory.Fail.TheVariants.{Steps, Number};
ghost use Rattle.ae_bounds.specs.Rounding.{AreRounded};
ghost use Rattle.ae_bound_rest.specs.Rest.{IsGrown, IsWideOf, AreNoted, AreAllNoted, AreWide};
ghost use Rattle.ae_bound_rest.specs.Inner.Pairs.{IsPairDone, ArePairsDone, AreDoneBelow, AreCounted};

use crate::combining::{both_at, combine_both};
use crate::starting::start;
use ae_bounds::directions::Direction;
use ae_bounds::rows::Row;
use ae_journal::journal::Journal;
use ae_theory::theory::Fail;
use indexmap::IndexSet;
use sqlite_items::Items;
use std::alloc::Global;

/// Notes and adds the combinations of the rows of two places, and of what they are rounded.
fn combine_places(
    alloc: Global,
    sure: &mut Items<Row>,
    directions: &mut IndexSet<Direction>,
    journal: &mut Journal,
    lower: usize,
    upper: usize,
) -> Result<(), Fail>
    requires counted { AreCounted sure.old directions.old.keys }
    requires lower { lower < length sure.old }
    requires upper { upper < length sure.old }
    ensures done { OnOk result (IsPairDone sure.old lower upper sure.new) }
    ensures counted { AreCounted sure.new directions.new.keys }
    ensures grown { IsGrown sure.old journal.old.lines sure.new journal.new.lines }
    ensures limit { journal.new.limit ≡ journal.old.limit }
    ensures steps { result ≡ Err Steps → counted_in journal.new.lines ≡ journal.new.limit }
    ensures number { (wide : WideAt) → result ≡ Err (Number wide) → IsWideOf sure.new wide }
{
    match both_at(alloc, sure.as_slice(), lower, upper)? {
        Some((low, high)) => combine_both(alloc, sure, directions, journal, &low, &high),
        None => Ok(()),
    }
}

/// Notes and adds those of the row of a place with the rows before it.
fn combine_place(
    alloc: Global,
    sure: &mut Items<Row>,
    directions: &mut IndexSet<Direction>,
    journal: &mut Journal,
    place: usize,
) -> Result<(), Fail>
    requires counted { AreCounted sure.old directions.old.keys }
    requires place { place < length sure.old }
    ensures paired { OnOk result (ArePairsDone sure.old place place sure.new) }
    ensures counted { AreCounted sure.new directions.new.keys }
    ensures grown { IsGrown sure.old journal.old.lines sure.new journal.new.lines }
    ensures limit { journal.new.limit ≡ journal.old.limit }
    ensures steps { result ≡ Err Steps → counted_in journal.new.lines ≡ journal.new.limit }
    ensures number { (wide : WideAt) → result ≡ Err (Number wide) → IsWideOf sure.new wide }
{
    for other in 0..place {
        combine_places(alloc, sure, directions, journal, place, other)?;
        combine_places(alloc, sure, directions, journal, other, place)?;
    }
    Ok(())
}

/// Whether all rows are before a place.
fn is_past(rows: &Items<Row>, place: usize) -> bool
    ensures past { result ≡ true → length rows.now ≤ place }
    ensures before { result ≡ false → place < length rows.now }
{
    place >= rows.len()
}

/// The number of rows is within that of places.
fn count_rows(rows: &Items<Row>)
    ensures { length rows.now < 2 ^ 64 }
{
    let _count = rows.len();
}

/// Notes and adds the combinations of each two rows, and of what they are rounded.
fn combine_all(
    alloc: Global,
    sure: &mut Items<Row>,
    directions: &mut IndexSet<Direction>,
    journal: &mut Journal,
) -> Result<(), Fail>
    requires counted { AreCounted sure.old directions.old.keys }
    ensures done { OnOk result (AreDoneBelow (length sure.new) sure.new) }
    ensures counted { AreCounted sure.new directions.new.keys }
    ensures grown { IsGrown sure.old journal.old.lines sure.new journal.new.lines }
    ensures limit { journal.new.limit ≡ journal.old.limit }
    ensures steps { result ≡ Err Steps → counted_in journal.new.lines ≡ journal.new.limit }
    ensures number { (wide : WideAt) → result ≡ Err (Number wide) → IsWideOf sure.new wide }
{
    for place in 0..usize::MAX {
        if is_past(sure, place) {
            return Ok(());
        }
        combine_place(alloc, sure, directions, journal, place)?;
    }
    count_rows(sure);
    Ok(())
}

/// Notes each combination of two rows that may still be noted: of kept ones as they are and as they were before they were rounded, and of the lines of
/// combinations, as they are and rounded, until none is left. What is noted says no more than the kept rows, where these have all their combinations.
///
/// `Steps` comes only where the journal is full, and `Number` only where a stated product or sum of a combination leaves the limits.
pub fn note_rest(alloc: Global, rows: &[Row], journal: &mut Journal) -> Result<(), Fail>
    requires normal { AllByRecursion (λ row. IsNormal row.lin) rows.now }
    requires rounded { AreRounded rows.now }
    ensures all { OnOk result (AreAllNoted rows.now journal.old.lines journal.new.lines) }
    ensures noted { AreNoted rows.now journal.old.lines journal.new.lines }
    ensures limit { journal.new.limit ≡ journal.old.limit }
    ensures steps { result ≡ Err Steps → counted_in journal.new.lines ≡ journal.new.limit }
    ensures number { (wide : WideAt) → result ≡ Err (Number wide) → AreWide rows.now journal.old.lines journal.new.lines wide }
{
    let mut sure = Items::new(alloc);
    let mut directions = IndexSet::new(alloc);
    start(alloc, rows, &mut sure, &mut directions)?;
    combine_all(alloc, &mut sure, &mut directions, journal)
}
