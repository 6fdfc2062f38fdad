//! The combinations of two rows that count, or of what they are rounded.

ghost use Rattle.std.specs.Prelude.{ℕ, ◌≡◌, ◌≢◌, ◌&&◌, ◌||◌, [], true, false, OnOk, IfOk, IfSome, IfNone, None, Err, ◌<◌, length, slice_get, Some};
ghost use Rattle.std.specs.List.{Contains};
ghost use Rattle.ae_math.specs.Forms.{Form};
ghost use Rattle.ae_num.specs.Forms.{IsNormal, meaning};
ghost use Rattle.ae_journal.specs.Journals.{counted_in};
ghost use Rattle.ae_journal.specs.declared.answers.WideAt.{WideAt};
ghost use Rattle.ae_theory.specs.declared.theory.Fail.TheVariants.{Steps, Number};
ghost use Rattle.ae_bounds.specs.declared.rows.Row.{Row as RowValue};
ghost use Rattle.ae_bounds.specs.declared.combining.Opposed.{Opposed as OpposedValue};
ghost use Rattle.ae_bounds.specs.Combinations.{IsThere};
ghost use Rattle.ae_bounds.specs.Inner.Directions.{AreIndexed};
ghost use Rattle.ae_bounds.specs.Inner.Pairs.{HaveLast};
ghost use Rattle.ae_bound_rest.specs.Rest.{plain as plain_row, IsRoundingOf, IsStandingIn, IsMade, IsGrown, IsWideOf};
ghost use Rattle.ae_bound_rest.specs.Inner.Pairs.{IsPlain, IsItself, IsBoth, IsOneOf, AreNormal, AreStandingIn, IsDoneOn};

use crate::starting::{plain, with_form};
use ae_bounds::combining::{combined, opposed_at};
use ae_bounds::directions::{Direction, direction_of};
use ae_bounds::noting::{has_direction, note};
use ae_bounds::rows::Row;
use ae_journal::journal::Journal;
use ae_num::copies::same_form;
use ae_num::forms::Lin;
use ae_rounding::rounding::rounded;
use ae_theory::theory::Fail;
use indexmap::IndexSet;
use sqlite_items::Items;
use std::alloc::{AllocError, Global};

/// A row, and what it is rounded, where that is another one.
#[derive(Drop)]
pub struct Both {
    pub own: Row,
    pub rounded: Option<Row>,
}

/// Whether a row is one over integers with names.
fn may_round(row: &Row) -> bool
    ensures yes { result ≡ true → (row.now.integral ≡ true) × (row.now.lin.parts ≢ []) }
    ensures no { result ≡ false → row.now.integral ≡ true → row.now.lin.parts ≢ [] → ⊥ }
{
    row.integral && !row.lin.parts.is_empty()
}

/// Whether rounding has left a row as it was.
fn is_unchanged(row: &Row, form: &Lin) -> bool
    ensures loose { result ≡ true → row.now.strict ≡ false }
    ensures same { result ≡ true → form.now ≡ row.now.lin }
{
    !row.strict && same_form(form, &row.lin)
}

/// What a row is rounded, where that is another one.
fn rounded_of(alloc: Global, row: &Row) -> Result<Option<Row>, AllocError>
    requires normal { IsNormal row.now.lin }
    requires plain { IsPlain row.now }
    ensures some { IfOk result (λ found. IfSome found (λ r. IsRoundingOf row.now r)) }
    ensures none { IfOk result (λ found. IfNone found (IsItself row.now)) }
{
    if !may_round(row) {
        return Ok(None);
    }
    let Some(form) = rounded(alloc, &row.lin, row.strict)? else {
        return Ok(None);
    };
    if is_unchanged(row, &form) {
        return Ok(None);
    }
    Ok(Some(plain(form, false, true, row.counts)))
}

/// A row with what it is rounded.
fn with_rounded(alloc: Global, row: &Row) -> Result<Both, AllocError>
    requires normal { IsNormal row.now.lin }
    requires plain { IsPlain row.now }
    ensures { IfOk result (λ made. IsBoth row.now made) }
{
    let rounded = rounded_of(alloc, row)?;
    let own = with_form(alloc, &row.lin, row.strict, row.integral, row.counts)?;
    Ok(Both { own, rounded })
}

/// Lets go a combination that isn't noted.
fn let_go(_row: Row, _direction: Direction) {}

/// Notes and adds a row, unless it is a positive multiple of one that counts.
fn note_one(
    alloc: Global,
    sure: &mut Items<Row>,
    directions: &mut IndexSet<Direction>,
    journal: &mut Journal,
    row: Row,
) -> Result<(), Fail>
    requires normal { IsNormal row.lin }
    requires plain { row.unrounded ≡ None }
    requires counts { row.counts ≡ true }
    requires indexed { AreIndexed sure.old directions.old.keys }
    ensures there { OnOk result (IsThere sure.new (meaning row.lin)) }
    ensures grown { IsMade sure.old row → IsGrown sure.old journal.old.lines sure.new journal.new.lines }
    ensures keeps { (f : Form ℕ) → IsThere sure.old f → IsThere sure.new f }
    ensures indexed { AreIndexed sure.new directions.new.keys }
    ensures limit { journal.new.limit ≡ journal.old.limit }
    ensures steps { result ≡ Err Steps → counted_in journal.new.lines ≡ journal.new.limit }
    ensures number { (wide : WideAt) → result ≡ Err (Number wide) → ⊥ }
{
    let direction = direction_of(alloc, &row.lin)?;
    if has_direction(directions, &direction) {
        let_go(row, direction);
        return Ok(());
    }
    note(alloc, sure, directions, journal, row, direction)
}

/// Notes and adds a combination, and what it is rounded.
fn note_both(
    alloc: Global,
    sure: &mut Items<Row>,
    directions: &mut IndexSet<Direction>,
    journal: &mut Journal,
    row: Row,
) -> Result<(), Fail>
    requires normal { IsNormal row.lin }
    requires plain { IsPlain row }
    requires counts { row.counts ≡ true }
    requires indexed { AreIndexed sure.old directions.old.keys }
    ensures there { OnOk result (IsThere sure.new (meaning row.lin)) }
    ensures rounded { OnOk result ((r : RowValue) → IsRoundingOf row r → IsThere sure.new (meaning r.lin)) }
    ensures grown { IsMade sure.old row → ((r : RowValue) → IsRoundingOf row r → IsMade sure.old r) → IsGrown sure.old journal.old.lines sure.new journal.new.lines }
    ensures keeps { (f : Form ℕ) → IsThere sure.old f → IsThere sure.new f }
    ensures indexed { AreIndexed sure.new directions.new.keys }
    ensures limit { journal.new.limit ≡ journal.old.limit }
    ensures steps { result ≡ Err Steps → counted_in journal.new.lines ≡ journal.new.limit }
    ensures number { (wide : WideAt) → result ≡ Err (Number wide) → ⊥ }
{
    let rounded = rounded_of(alloc, &row)?;
    note_one(alloc, sure, directions, journal, row)?;
    match rounded {
        Some(form) => note_one(alloc, sure, directions, journal, form),
        None => Ok(()),
    }
}

/// Whether one of two rows is strict.
fn one_strict(low: &Row, high: &Row) -> bool
    ensures { result ≡ (low.now.strict || high.now.strict) }
{
    low.strict || high.strict
}

/// Whether two rows are of sort `int`.
fn both_integral(low: &Row, high: &Row) -> bool
    ensures { result ≡ (low.now.integral && high.now.integral) }
{
    low.integral && high.integral
}

/// Notes and adds the combination of two rows, where they have one, and what it is rounded.
fn combine_two(
    alloc: Global,
    sure: &mut Items<Row>,
    directions: &mut IndexSet<Direction>,
    journal: &mut Journal,
    low: &Row,
    high: &Row,
) -> Result<(), Fail>
    requires lower { IsNormal low.now.lin }
    requires upper { IsNormal high.now.lin }
    requires indexed { AreIndexed sure.old directions.old.keys }
    ensures done { OnOk result (IsDoneOn sure.new low.now high.now) }
    ensures grown { IsStandingIn sure.old low.now → IsStandingIn sure.old high.now → IsGrown sure.old journal.old.lines sure.new journal.new.lines }
    ensures keeps { (f : Form ℕ) → IsThere sure.old f → IsThere sure.new f }
    ensures indexed { AreIndexed sure.new directions.new.keys }
    ensures limit { journal.new.limit ≡ journal.old.limit }
    ensures steps { result ≡ Err Steps → counted_in journal.new.lines ≡ journal.new.limit }
    ensures number { (wide : WideAt) → result ≡ Err (Number wide) → IsStandingIn sure.old low.now → IsStandingIn sure.old high.now → IsWideOf sure.new wide }
{
    match opposed_at(&low.lin, &high.lin) {
        Some(at) => {
            let strict = one_strict(low, high);
            let integral = both_integral(low, high);
            let lin = combined(alloc, at, &low.lin, &high.lin)?;
            let row = plain(lin, strict, integral, true);
            note_both(alloc, sure, directions, journal, row)
        }
        None => Ok(()),
    }
}

/// The same of a row with another one, and with what that is rounded.
fn combine_with(
    alloc: Global,
    sure: &mut Items<Row>,
    directions: &mut IndexSet<Direction>,
    journal: &mut Journal,
    low: &Row,
    high: &Both,
) -> Result<(), Fail>
    requires lower { IsNormal low.now.lin }
    requires upper { AreNormal high.now }
    requires indexed { AreIndexed sure.old directions.old.keys }
    ensures done { OnOk result ((q : RowValue) → IsOneOf high.now q → IsDoneOn sure.new low.now q) }
    ensures grown { IsStandingIn sure.old low.now → AreStandingIn sure.old high.now → IsGrown sure.old journal.old.lines sure.new journal.new.lines }
    ensures keeps { (f : Form ℕ) → IsThere sure.old f → IsThere sure.new f }
    ensures indexed { AreIndexed sure.new directions.new.keys }
    ensures limit { journal.new.limit ≡ journal.old.limit }
    ensures steps { result ≡ Err Steps → counted_in journal.new.lines ≡ journal.new.limit }
    ensures number { (wide : WideAt) → result ≡ Err (Number wide) → IsStandingIn sure.old low.now → AreStandingIn sure.old high.now → IsWideOf sure.new wide }
{
    combine_two(alloc, sure, directions, journal, low, &high.own)?;
    match &high.rounded {
        Some(rounded) => combine_two(alloc, sure, directions, journal, low, rounded),
        None => Ok(()),
    }
}

/// The same of two rows, and what they are rounded.
pub fn combine_both(
    alloc: Global,
    sure: &mut Items<Row>,
    directions: &mut IndexSet<Direction>,
    journal: &mut Journal,
    low: &Both,
    high: &Both,
) -> Result<(), Fail>
    requires lower { AreNormal low.now }
    requires upper { AreNormal high.now }
    requires indexed { AreIndexed sure.old directions.old.keys }
    ensures done { OnOk result ((p q : RowValue) → IsOneOf low.now p → IsOneOf high.now q → IsDoneOn sure.new p q) }
    ensures grown { AreStandingIn sure.old low.now → AreStandingIn sure.old high.now → IsGrown sure.old journal.old.lines sure.new journal.new.lines }
    ensures keeps { (f : Form ℕ) → IsThere sure.old f → IsThere sure.new f }
    ensures indexed { AreIndexed sure.new directions.new.keys }
    ensures limit { journal.new.limit ≡ journal.old.limit }
    ensures steps { result ≡ Err Steps → counted_in journal.new.lines ≡ journal.new.limit }
    ensures number { (wide : WideAt) → result ≡ Err (Number wide) → AreStandingIn sure.old low.now → AreStandingIn sure.old high.now → IsWideOf sure.new wide }
{
    combine_with(alloc, sure, directions, journal, &low.own, high)?;
    match &low.rounded {
        Some(rounded) => combine_with(alloc, sure, directions, journal, rounded, high),
        None => Ok(()),
    }
}

/// Whether two rows have a combination.
fn are_opposed(low: &Row, high: &Row) -> bool
    ensures { result ≡ false → (o : OpposedValue) → HaveLast low.now.lin high.now.lin o → ⊥ }
{
    match opposed_at(&low.lin, &high.lin) {
        Some(_) => true,
        None => false,
    }
}

/// The rows of two places with what they are rounded, where they have a combination.
pub fn both_at(
    alloc: Global,
    rows: &[Row],
    lower: usize,
    upper: usize,
) -> Result<Option<(Both, Both)>, AllocError>
    requires lower { lower < length rows.now }
    requires upper { upper < length rows.now }
    requires each { (r : RowValue) → Contains rows.now r → IsNormal r.lin × IsPlain r }
    ensures some { IfOk result (λ found. IfSome found (λ pair. (s t : RowValue) → slice_get rows.now lower ≡ Some s → slice_get rows.now upper ≡ Some t → IsBoth s pair.0 × IsBoth t pair.1)) }
    ensures none { IfOk result (λ found. IfNone found ((s t : RowValue) (o : OpposedValue) → slice_get rows.now lower ≡ Some s → slice_get rows.now upper ≡ Some t → HaveLast s.lin t.lin o → ⊥)) }
{
    let low = &rows[lower];
    let high = &rows[upper];
    if !are_opposed(low, high) {
        return Ok(None);
    }
    let first = with_rounded(alloc, low)?;
    let second = with_rounded(alloc, high)?;
    Ok(Some((first, second)))
}
