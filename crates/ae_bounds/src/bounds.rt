//! The rows that were assumed, and the combinations that were noted.

ghost use Rattle.std.specs.Prelude.{ℕ, ◌≡◌, ◌⊎◌, ◌<◌, ◌≤◌, ◌+◌, ◌^◌, true, false, List, ◌&&◌, ◌||◌, ◌++◌, ◌∷◌, [], length, slice_get, nat_eq, Some, OnOk, OnErr, IfOk, IfSome, IfNone, Ok, Err};
ghost use Rattle.std.specs.List.{AllByRecursion};
ghost use Rattle.ae_num.specs.Forms.{IsNormal, meaning};
ghost use Rattle.ae_journal.specs.Journals.{counted_in};
ghost use Rattle.ae_journal.specs.declared.answers.WideAt.{WideAt};
ghost use Rattle.ae_journal.specs.declared.lines.Line.{Line};
ghost use Rattle.indexmap.specs.IndexSet.{contains};
ghost use Rattle.indexmap.specs.IndexMap.{get};
ghost use Rattle.ae_bounds.specs.Inner.Heads.{AreBefore, IsHeadAt};
ghost use Rattle.ae_theory.specs.declared.theory.Fail.TheVariants.{Steps, Number};
ghost use Rattle.ae_bounds.specs.declared.rows.Row.{Row};
ghost use Rattle.ae_bounds.specs.Rounding.{IsAssumed, AreRounded, AreSettled};
ghost use Rattle.ae_bounds.specs.declared.finding.Found.TheVariants.{Open, Tight, Contradiction};
ghost use Rattle.ae_ineq.specs.Sums.{HasTightSum, HasRefutedSum};
ghost use Rattle.ae_bounds.specs.Findings.{given_in, AreFounded, IsRefutedAt, IsTightAt, NoneIsRefuted, HasRefuted, StopsAtRefuted};
ghost use Rattle.ae_bounds.specs.Combinations.{IsHeld, IsCombined, IsExtended, AreClosed, HasZero, IsWideIn};
ghost use Rattle.ae_bounds.specs.Inner.Directions.{AreIndexed, IsDirectionOf, is_same};
ghost use Rattle.ae_bounds.specs.Inner.Pairs.{IsMadeOf, IsPairThere, ArePaired, IsKept, IsOneMore};

use crate::combining::{combined, opposed_at};
use crate::directions::{Direction, direction_of, earlier_direction, is_zero};
use crate::finding::{Found, ends_refuted, found_in, has_refuted};
use crate::heads::{enter, head_of, last_at, place_before};
use crate::noting::{add, add_assumed, has_direction, note};
use crate::rounding::row_of;
use crate::rows::{Origin, Row};
use ae_journal::journal::Journal;
use ae_num::forms::{Lin, Name};
use ae_theory::theory::Fail;
use indexmap::{IndexMap, IndexSet};
use sqlite_items::Items;
use std::alloc::{AllocError, Global};
use std::marker::Model;

/// Whether one of two rows is strict.
fn one_strict(left: &Row, right: &Row) -> bool
    ensures { result ≡ (left.now.strict || right.now.strict) }
{
    left.strict || right.strict
}

/// Whether two rows are of sort `int`.
fn both_integral(left: &Row, right: &Row) -> bool
    ensures { result ≡ (left.now.integral && right.now.integral) }
{
    left.integral && right.integral
}

/// The combination of two rows, where the largest name of both has a positive factor in the first and a negative one in the second.
fn made(alloc: Global, rows: &[Row], lower: usize, upper: usize) -> Result<Option<Row>, Fail>
    requires normal { AllByRecursion (λ row. IsNormal row.lin) rows.now }
    requires lower { lower < length rows.now }
    requires upper { upper < length rows.now }
    ensures some { IfOk result (λ found. IfSome found (λ row. IsCombined rows.now row)) }
    ensures pair { IfOk result (λ found. IfSome found (λ row. IsMadeOf rows.now lower upper row)) }
    ensures none { IfOk result (λ found. IfNone found (IsPairThere rows.now lower upper rows.now)) }
    ensures number { (wide : WideAt) → result ≡ Err (Number wide) → IsWideIn rows.now wide }
    ensures steps { result ≡ Err Steps → ⊥ }
{
    let low = &rows[lower];
    let high = &rows[upper];
    match opposed_at(&low.lin, &high.lin) {
        Some(at) => {
            let strict = one_strict(low, high);
            let integral = both_integral(low, high);
            let lin = combined(alloc, at, &low.lin, &high.lin)?;
            let from = Origin::Combined { lower, upper };
            let row = row_of(alloc, lin, strict, integral, true, from)?;
            Ok(Some(row))
        }
        None => Ok(None),
    }
}

/// Lets go a combination that isn't kept.
fn let_go(_row: Row, _direction: Direction) {}

/// Adds a combination that is a positive multiple of a row, without a line, where it is 0.
fn keep_zero(
    rows: &mut Items<Row>,
    directions: &mut IndexSet<Direction>,
    row: Row,
    direction: Direction,
) -> Result<(), Fail>
    requires direction { IsDirectionOf row.lin direction.form }
    requires seen { contains is_same directions.old direction ≡ true }
    requires indexed { AreIndexed rows.old directions.old.keys }
    requires combined { IsCombined rows.old row }
    ensures held { OnOk result (IsHeld rows.new (meaning row.lin)) }
    ensures indexed { AreIndexed rows.new directions.new.keys }
    ensures extended { (js : List Line) → IsExtended rows.old js rows.new js }
    ensures one { IsOneMore rows.old rows.new }
    ensures steps { result ≡ Err Steps → ⊥ }
    ensures number { (wide : WideAt) → result ≡ Err (Number wide) → ⊥ }
{
    if !is_zero(&row.lin) {
        let_go(row, direction);
        return Ok(());
    }
    add(rows, directions, row, direction)?;
    Ok(())
}

/// Notes and adds a combination, unless it is a positive multiple of a row; one that is 0 is then added without a line.
fn note_new(
    alloc: Global,
    rows: &mut Items<Row>,
    directions: &mut IndexSet<Direction>,
    journal: &mut Journal,
    row: Row,
) -> Result<(), Fail>
    requires indexed { AreIndexed rows.old directions.old.keys }
    requires combined { IsCombined rows.old row }
    ensures held { OnOk result (IsHeld rows.new (meaning row.lin)) }
    ensures indexed { AreIndexed rows.new directions.new.keys }
    ensures extended { IsExtended rows.old journal.old.lines rows.new journal.new.lines }
    ensures one { IsOneMore rows.old rows.new }
    ensures limit { journal.new.limit ≡ journal.old.limit }
    ensures steps { result ≡ Err Steps → counted_in journal.new.lines ≡ journal.new.limit }
    ensures number { (wide : WideAt) → result ≡ Err (Number wide) → ⊥ }
{
    let direction = direction_of(alloc, &row.lin)?;
    if has_direction(directions, &direction) {
        return keep_zero(rows, directions, row, direction);
    }
    note(alloc, rows, directions, journal, row, direction)
}

/// Notes and adds the combination of two rows, where they have one that is no positive multiple of a row.
fn combine_rows(
    alloc: Global,
    rows: &mut Items<Row>,
    directions: &mut IndexSet<Direction>,
    journal: &mut Journal,
    lower: usize,
    upper: usize,
) -> Result<(), Fail>
    requires indexed { AreIndexed rows.old directions.old.keys }
    requires lower { lower < length rows.old }
    requires upper { upper < length rows.old }
    ensures done { OnOk result (IsPairThere rows.old lower upper rows.new) }
    ensures indexed { AreIndexed rows.new directions.new.keys }
    ensures extended { IsExtended rows.old journal.old.lines rows.new journal.new.lines }
    ensures one { IsOneMore rows.old rows.new }
    ensures limit { journal.new.limit ≡ journal.old.limit }
    ensures steps { result ≡ Err Steps → counted_in journal.new.lines ≡ journal.new.limit }
    ensures number { (wide : WideAt) → result ≡ Err (Number wide) → IsWideIn rows.new wide }
{
    match made(alloc, rows.as_slice(), lower, upper)? {
        Some(row) => note_new(alloc, rows, directions, journal, row),
        None => Ok(()),
    }
}

/// Notes and adds the combination of two rows in the same way. Whether it can't hold.
fn combine_and_look(
    alloc: Global,
    rows: &mut Items<Row>,
    directions: &mut IndexSet<Direction>,
    journal: &mut Journal,
    lower: usize,
    upper: usize,
) -> Result<bool, Fail>
    requires indexed { AreIndexed rows.old directions.old.keys }
    requires lower { lower < length rows.old }
    requires upper { upper < length rows.old }
    requires possible { NoneIsRefuted rows.old }
    ensures done { result ≡ Ok false → IsPairThere rows.old lower upper rows.new }
    ensures refuted { result ≡ Ok true → HasRefuted rows.new }
    ensures possible { result ≡ Ok false → NoneIsRefuted rows.new }
    ensures stops { StopsAtRefuted rows.old rows.new }
    ensures indexed { AreIndexed rows.new directions.new.keys }
    ensures extended { IsExtended rows.old journal.old.lines rows.new journal.new.lines }
    ensures limit { journal.new.limit ≡ journal.old.limit }
    ensures steps { result ≡ Err Steps → counted_in journal.new.lines ≡ journal.new.limit }
    ensures number { (wide : WideAt) → result ≡ Err (Number wide) → IsWideIn rows.new wide }
{
    combine_rows(alloc, rows, directions, journal, lower, upper)?;
    Ok(ends_refuted(rows))
}

/// Notes and adds the combinations of two rows, the second one unless the first can't hold. Whether one of them can't.
fn combine_pair(
    alloc: Global,
    rows: &mut Items<Row>,
    directions: &mut IndexSet<Direction>,
    journal: &mut Journal,
    place: usize,
    other: usize,
) -> Result<bool, Fail>
    requires indexed { AreIndexed rows.old directions.old.keys }
    requires place { place < length rows.old }
    requires other { other < length rows.old }
    requires possible { NoneIsRefuted rows.old }
    ensures done { result ≡ Ok false → IsPairThere rows.old place other rows.new × IsPairThere rows.old other place rows.new }
    ensures refuted { result ≡ Ok true → HasRefuted rows.new }
    ensures possible { result ≡ Ok false → NoneIsRefuted rows.new }
    ensures stops { StopsAtRefuted rows.old rows.new }
    ensures indexed { AreIndexed rows.new directions.new.keys }
    ensures extended { IsExtended rows.old journal.old.lines rows.new journal.new.lines }
    ensures limit { journal.new.limit ≡ journal.old.limit }
    ensures steps { result ≡ Err Steps → counted_in journal.new.lines ≡ journal.new.limit }
    ensures number { (wide : WideAt) → result ≡ Err (Number wide) → IsWideIn rows.new wide }
{
    let refuted = combine_and_look(alloc, rows, directions, journal, place, other)?;
    if refuted {
        return Ok(true);
    }
    combine_and_look(alloc, rows, directions, journal, other, place)
}

/// Notes and adds the combinations of a row with those before it that have the same largest name, of which `head` is the last, until one can't hold. Whether
/// one can't.
fn combine_earlier(
    alloc: Global,
    rows: &mut Items<Row>,
    directions: &mut IndexSet<Direction>,
    earlier: &Items<Option<usize>>,
    journal: &mut Journal,
    place: usize,
    head: Option<usize>,
) -> Result<bool, Fail>
    requires indexed { AreIndexed rows.old directions.old.keys }
    requires place { place < length rows.old }
    requires within { length earlier.now ≡ place }
    requires before { AreBefore rows.old earlier.now }
    requires head { IsHeadAt rows.old place head }
    requires possible { NoneIsRefuted rows.old }
    ensures paired { result ≡ Ok false → ArePaired rows.old place place rows.new }
    ensures refuted { result ≡ Ok true → HasRefuted rows.new }
    ensures possible { result ≡ Ok false → NoneIsRefuted rows.new }
    ensures stops { StopsAtRefuted rows.old rows.new }
    ensures indexed { AreIndexed rows.new directions.new.keys }
    ensures extended { IsExtended rows.old journal.old.lines rows.new journal.new.lines }
    ensures limit { journal.new.limit ≡ journal.old.limit }
    ensures steps { result ≡ Err Steps → counted_in journal.new.lines ≡ journal.new.limit }
    ensures number { (wide : WideAt) → result ≡ Err (Number wide) → IsWideIn rows.new wide }
{
    let mut at = head;
    'partners: while let Some(other) = at {
        let refuted = combine_pair(alloc, rows, directions, journal, place, other)?;
        if refuted {
            return Ok(true);
        }
        at = place_before(earlier, other);
    }
    Ok(false)
}

/// Whether all rows are before a place.
fn is_past(rows: &Items<Row>, place: usize) -> bool
    ensures past { result ≡ true → length rows.now ≤ place }
    ensures before { result ≡ false → place < length rows.now }
{
    place >= rows.len()
}

/// The number of rows is within that of places.
fn count_rows(rows: &Items<Row>)
    ensures { length rows.now < 2 ^ 64 }
{
    let _count = rows.len();
}

/// Notes and adds the combinations of each row with those before it, until all rows have them, or one can't hold.
fn close_rows(
    alloc: Global,
    rows: &mut Items<Row>,
    directions: &mut IndexSet<Direction>,
    latest: &mut IndexMap<Name, usize>,
    earlier: &mut Items<Option<usize>>,
    journal: &mut Journal,
) -> Result<(), Fail>
    requires kept { IsKept rows.old directions.old.keys (get nat_eq latest.old) earlier.old }
    ensures closed { OnOk result (AreClosed rows.new ⊎ HasRefuted rows.new) }
    ensures stops { StopsAtRefuted rows.old rows.new }
    ensures kept { IsKept rows.new directions.new.keys (get nat_eq latest.new) earlier.new }
    ensures extended { IsExtended rows.old journal.old.lines rows.new journal.new.lines }
    ensures limit { journal.new.limit ≡ journal.old.limit }
    ensures steps { result ≡ Err Steps → counted_in journal.new.lines ≡ journal.new.limit }
    ensures number { (wide : WideAt) → result ≡ Err (Number wide) → IsWideIn rows.new wide }
{
    if has_refuted(rows) {
        return Ok(());
    }
    for place in earlier.len()..usize::MAX {
        if is_past(rows, place) {
            return Ok(());
        }
        let part = last_at(rows, place);
        let head = head_of(latest, part);
        let refuted = combine_earlier(alloc, rows, directions, earlier, journal, place, head)?;
        if refuted {
            return Ok(());
        }
        enter(latest, earlier, part, head)?;
    }
    count_rows(rows);
    Ok(())
}

/// The rows that were assumed, and the combinations that were noted, in the order of entry. Contracts see the list of them.
#[derive(Drop)]
pub struct Bounds {
    rows: Items<Row>,
    directions: IndexSet<Direction>,
    /// For each largest name the last row that has it, of the first rows, which have all their combinations.
    latest: IndexMap<Name, usize>,
    /// For each of these the one before it that has the same largest name.
    earlier: Items<Option<usize>>,
}

impl Model for Bounds {
    ghost use Rattle.std.specs.Prelude.{List};
    ghost use Rattle.std.specs.Coded.{coded_list};
    ghost use Rattle.ae_bounds.specs.declared.rows.Row.{Row};
    ghost use Rattle.ae_bounds.specs.contracts.rows.Row as row_contract;

    ghost Value = { List Row };

    ghost coded = { coded_list row_contract.the_row.coded };

    ghost use Rattle.std.specs.Prelude.{nat_eq};
    ghost use Rattle.indexmap.specs.IndexMap.{get};
    ghost use Rattle.ae_bounds.specs.Inner.Pairs.{IsKept};

    ghost view = { λ b. b.rows };

    ghost invariant = { λ b. IsKept b.rows b.directions.keys (get nat_eq b.latest) b.earlier };
}

impl Bounds {
    /// No rows. It takes no memory.
    pub fn new(alloc: Global) -> Bounds
        ensures { result ≡ [] }
    {
        Bounds {
            rows: Items::new(alloc),
            directions: IndexSet::new(alloc),
            latest: IndexMap::new(alloc),
            earlier: Items::new(alloc),
        }
    }

    /// The rows.
    pub fn rows(&self) -> &[Row]
        ensures rows { result.now ≡ self.now }
        ensures normal { AllByRecursion (λ row. IsNormal row.lin) self.now }
        ensures founded { AreFounded self.now }
        ensures rounded { AreRounded self.now }
        ensures settled { AreSettled self.now }
    {
        self.rows.as_slice()
    }

    /// Adds a row: `lin >= 0`, or `lin > 0` where `strict`. Where `integral`, its sides have the sort `int`, and so have its names: it is rounded at once. Unless it
    /// `counts`, a combination that is a positive multiple of it is still noted.
    pub fn assume(
        &mut self,
        alloc: Global,
        lin: Lin,
        strict: bool,
        integral: bool,
        counts: bool,
        tag: usize,
    ) -> Result<(), AllocError>
        requires normal { IsNormal lin }
        ensures added { OnOk result ((row : Row) × (self.new ≡ self.old ++ row ∷ []) × IsAssumed lin strict integral tag row × (row.counts ≡ counts)) }
        ensures kept { OnErr result (self.new ≡ self.old) }
    {
        let row = row_of(alloc, lin, strict, integral, counts, Origin::Assumed(tag))?;
        let direction = direction_of(alloc, &row.lin)?;
        let earlier = earlier_direction(alloc, &row, tag)?;
        add_assumed(
            &mut self.rows,
            &mut self.directions,
            row,
            direction,
            earlier,
        )
    }

    /// Notes and adds the combinations of two rows on the largest name of both that are no positive multiples of a row, until there are none, or a row can't
    /// hold. One that is 0 is added without a line where a row is 0 already.
    ///
    /// It can be called again after more rows were assumed: it goes on where it stopped.
    ///
    /// `Steps` comes only where the journal is full, and `Number` only where a stated product or sum of the combination of two rows leaves the limits.
    /// After either of them the rows that were there still are, and the combinations that were noted till then.
    pub fn close(&mut self, alloc: Global, journal: &mut Journal) -> Result<(), Fail>
        ensures closed { OnOk result (AreClosed self.new ⊎ HasRefuted self.new) }
        ensures stops { StopsAtRefuted self.old self.new }
        ensures extended { IsExtended self.old journal.old.lines self.new journal.new.lines }
        ensures limit { journal.new.limit ≡ journal.old.limit }
        ensures steps { result ≡ Err Steps → counted_in journal.new.lines ≡ journal.new.limit }
        ensures number { (wide : WideAt) → result ≡ Err (Number wide) → IsWideIn self.new wide }
    {
        close_rows(
            alloc,
            &mut self.rows,
            &mut self.directions,
            &mut self.latest,
            &mut self.earlier,
            journal,
        )
    }

    /// What the rows come to. A contradiction comes before a tight sum.
    pub fn found(&self) -> Found
        ensures refuted { (place : ℕ) → result ≡ Contradiction place → IsRefutedAt self.now place }
        ensures refuted_sum { (place : ℕ) → result ≡ Contradiction place → HasRefutedSum (given_in self.now) }
        ensures tight { (place : ℕ) → result ≡ Tight place → IsTightAt self.now place }
        ensures tight_sum { (place : ℕ) → result ≡ Tight place → HasTightSum (given_in self.now) }
        ensures tight_last { (place : ℕ) → result ≡ Tight place → NoneIsRefuted self.now }
        ensures open { result ≡ Open → NoneIsRefuted self.now }
        ensures open_loose { result ≡ Open → HasZero self.now → ⊥ }
    {
        found_in(self.rows.as_slice())
    }
}
