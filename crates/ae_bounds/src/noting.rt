//! Rows that are added, with their directions and their lines.

ghost use Rattle.std.specs.Prelude.{◌-ℤ◌, pos, ◌≡◌, ◌≢◌, ◌++◌, ◌∷◌, [], OnOk, OnErr, IfOk, IsTrue, true, false, Err, not, Some, None, take, length, ◌+◌, if◌then◌else◌};
ghost use Rattle.indexmap.specs.IndexSet.{contains, insert_key};
ghost use Rattle.ae_journal.specs.Journals.{counted_in};
ghost use Rattle.ae_journal.specs.declared.lines.Line.TheVariants.{Combine};
ghost use Rattle.ae_journal.specs.declared.answers.WideAt.{WideAt};
ghost use Rattle.ae_num.specs.Forms.{IsNormal};
ghost use Rattle.ae_num.specs.Limits.{FitsLimits};
ghost use Rattle.ae_theory.specs.declared.theory.Fail.TheVariants.{Steps, Number};
ghost use Rattle.ae_bounds.specs.Rounding.{IsLeastRounded, DoesCount};
ghost use Rattle.ae_bounds.specs.Inner.Directions.{AreIndexed, IsDirectionOf, IsEarlier, is_same};

use crate::directions::Direction;
use crate::rows::{Origin, Row};
use ae_core::sorts::is_within;
use ae_journal::journal::{Journal, JournalFail};
use ae_journal::lines::Line;
use ae_num::copies::copied;
use ae_num::forms::Lin;
use ae_theory::theory::Fail;
use indexmap::IndexSet;
use sqlite_items::Items;
use std::alloc::{AllocError, Global};

/// Takes off the last row.
fn take_last(rows: &mut Items<Row>)
    requires { rows.old ≢ [] }
    ensures { (front : _) (row : _) → rows.old ≡ front ++ row ∷ [] → rows.new ≡ front }
{
    rows.pop();
}

/// Whether a form of this direction is a positive multiple of a row.
pub fn has_direction(directions: &IndexSet<Direction>, direction: &Direction) -> bool
    ensures { result ≡ contains is_same directions.now direction.now }
{
    directions.contains(direction)
}

/// Adds a row and a direction. Refused memory leaves both as they were.
fn push(
    rows: &mut Items<Row>,
    directions: &mut IndexSet<Direction>,
    row: Row,
    direction: Direction,
) -> Result<(), AllocError>
    ensures rows { OnOk result (rows.new ≡ rows.old ++ row ∷ []) }
    ensures directions { OnOk result (directions.new.keys ≡ insert_key is_same directions.old.keys direction) }
    ensures kept { OnErr result ((rows.new ≡ rows.old) × (directions.new.keys ≡ directions.old.keys)) }
{
    rows.push(row)?;
    match directions.insert(direction) {
        Ok(_) => Ok(()),
        Err(failed) => {
            take_last(rows);
            Err(AllocError::from(failed))
        }
    }
}

/// Adds a direction. Where there is no memory for it, the last row and all but the first directions are taken off.
fn push_more(
    rows: &mut Items<Row>,
    directions: &mut IndexSet<Direction>,
    direction: Direction,
    count: usize,
) -> Result<(), AllocError>
    requires { rows.old ≢ [] }
    ensures rows { OnOk result (rows.new ≡ rows.old) }
    ensures directions { OnOk result (directions.new.keys ≡ insert_key is_same directions.old.keys direction) }
    ensures taken { OnErr result ((front : _) (row : _) → rows.old ≡ front ++ row ∷ [] → rows.new ≡ front) }
    ensures cut { OnErr result (directions.new.keys ≡ take count directions.old.keys) }
{
    match directions.insert(direction) {
        Ok(_) => Ok(()),
        Err(failed) => {
            take_last(rows);
            directions.truncate(count);
            Err(AllocError::from(failed))
        }
    }
}

/// Adds a row with its direction, where its own form alone counts. Refused memory leaves the rows as they were.
pub fn add(
    rows: &mut Items<Row>,
    directions: &mut IndexSet<Direction>,
    row: Row,
    direction: Direction,
) -> Result<(), AllocError>
    requires direction { IsDirectionOf row.lin direction.form }
    requires alone { IsEarlier row None }
    requires counts { DoesCount row }
    requires indexed { AreIndexed rows.old directions.old.keys }
    ensures added { OnOk result (rows.new ≡ rows.old ++ row ∷ []) }
    ensures kept { OnErr result ((rows.new ≡ rows.old) × (directions.new.keys ≡ directions.old.keys)) }
    ensures indexed { AreIndexed rows.new directions.new.keys }
{
    push(rows, directions, row, direction)
}

/// Adds a row with the direction of the form that it had before it was rounded, which alone counts. Refused memory leaves the rows as they were.
fn add_earlier(
    rows: &mut Items<Row>,
    directions: &mut IndexSet<Direction>,
    row: Row,
    earlier: Direction,
) -> Result<(), AllocError>
    requires normal { IsNormal row.lin }
    requires counts { DoesCount row }
    requires least { FitsLimits (row.lin.constant -ℤ pos 1) → ⊥ }
    requires earlier { IsEarlier row (Some earlier) }
    requires indexed { AreIndexed rows.old directions.old.keys }
    ensures added { OnOk result (rows.new ≡ rows.old ++ row ∷ []) }
    ensures kept { OnErr result ((rows.new ≡ rows.old) × (directions.new.keys ≡ directions.old.keys)) }
    ensures indexed { AreIndexed rows.new directions.new.keys }
{
    push(rows, directions, row, earlier)
}

/// Adds a row with its direction and that of the form that it had before it was rounded. Refused memory leaves the rows as they were.
fn add_two(
    rows: &mut Items<Row>,
    directions: &mut IndexSet<Direction>,
    row: Row,
    direction: Direction,
    earlier: Direction,
) -> Result<(), AllocError>
    requires direction { IsDirectionOf row.lin direction.form }
    requires counts { DoesCount row }
    requires more { IsLeastRounded row → ⊥ }
    requires earlier { IsEarlier row (Some earlier) }
    requires indexed { AreIndexed rows.old directions.old.keys }
    ensures added { OnOk result (rows.new ≡ rows.old ++ row ∷ []) }
    ensures kept { OnErr result ((rows.new ≡ rows.old) × (directions.new.keys ≡ directions.old.keys)) }
    ensures indexed { AreIndexed rows.new directions.new.keys }
{
    let count = directions.len();
    push(rows, directions, row, direction)?;
    push_more(rows, directions, earlier, count)
}

/// The number before one within the limits.
fn less_one(number: i128) -> i128
    requires { FitsLimits number }
    ensures { result ≡ number -ℤ pos 1 }
{
    number - 1
}

/// Whether the constant of a form is the least within the limits.
fn is_least(form: &Lin) -> bool
    requires { FitsLimits form.now.constant }
    ensures yes { result ≡ true → FitsLimits (form.now.constant -ℤ pos 1) → ⊥ }
    ensures no { result ≡ false → FitsLimits (form.now.constant -ℤ pos 1) }
{
    let less = less_one(form.constant);
    !is_within(less)
}

/// Lets go the direction of a row's own form, which doesn't count.
fn let_go(_direction: Direction) {}

/// Adds a row that was rounded with its direction and that of the form that it had before. Where its constant is the least within the limits, its own form doesn't
/// count: a strict row of that form says more. Refused memory leaves the rows as they were.
fn add_both(
    rows: &mut Items<Row>,
    directions: &mut IndexSet<Direction>,
    row: Row,
    direction: Direction,
    earlier: Direction,
) -> Result<(), AllocError>
    requires normal { IsNormal row.lin }
    requires direction { IsDirectionOf row.lin direction.form }
    requires counts { DoesCount row }
    requires earlier { IsEarlier row (Some earlier) }
    requires indexed { AreIndexed rows.old directions.old.keys }
    ensures added { OnOk result (rows.new ≡ rows.old ++ row ∷ []) }
    ensures kept { OnErr result ((rows.new ≡ rows.old) × (directions.new.keys ≡ directions.old.keys)) }
    ensures indexed { AreIndexed rows.new directions.new.keys }
{
    if is_least(&row.lin) {
        let_go(direction);
        return add_earlier(rows, directions, row, earlier);
    }
    add_two(rows, directions, row, direction, earlier)
}

/// Adds a row that was assumed and counts. Refused memory leaves the rows as they were.
fn add_counted(
    rows: &mut Items<Row>,
    directions: &mut IndexSet<Direction>,
    row: Row,
    direction: Direction,
    earlier: Option<Direction>,
) -> Result<(), AllocError>
    requires normal { IsNormal row.lin }
    requires direction { IsDirectionOf row.lin direction.form }
    requires counts { DoesCount row }
    requires earlier { IsEarlier row earlier }
    requires indexed { AreIndexed rows.old directions.old.keys }
    ensures added { OnOk result (rows.new ≡ rows.old ++ row ∷ []) }
    ensures kept { OnErr result ((rows.new ≡ rows.old) × (directions.new.keys ≡ directions.old.keys)) }
    ensures indexed { AreIndexed rows.new directions.new.keys }
{
    match earlier {
        Some(earlier) => add_both(rows, directions, row, direction, earlier),
        None => add(rows, directions, row, direction),
    }
}

/// Whether combinations that are positive multiples of a row are left out.
fn does_count(row: &Row) -> bool
    ensures yes { result ≡ true → DoesCount row.now }
    ensures no { result ≡ false → DoesCount row.now → ⊥ }
{
    match row.from {
        Origin::Assumed(_) => row.counts,
        Origin::Combined { .. } => true,
    }
}

/// Lets go the directions of a row that doesn't count.
fn let_go_both(_direction: Direction, _earlier: Option<Direction>) {}

/// Adds a row without a direction. Refused memory leaves the rows as they were.
fn push_alone(rows: &mut Items<Row>, row: Row) -> Result<(), AllocError>
    ensures added { OnOk result (rows.new ≡ rows.old ++ row ∷ []) }
    ensures kept { OnErr result (rows.new ≡ rows.old) }
{
    rows.push(row)?;
    Ok(())
}

/// Adds a row that was assumed, with its directions where it counts. Refused memory leaves the rows as they were.
pub fn add_assumed(
    rows: &mut Items<Row>,
    directions: &mut IndexSet<Direction>,
    row: Row,
    direction: Direction,
    earlier: Option<Direction>,
) -> Result<(), AllocError>
    requires normal { IsNormal row.lin }
    requires direction { IsDirectionOf row.lin direction.form }
    requires earlier { IsEarlier row earlier }
    requires indexed { AreIndexed rows.old directions.old.keys }
    ensures added { OnOk result (rows.new ≡ rows.old ++ row ∷ []) }
    ensures kept { OnErr result ((rows.new ≡ rows.old) × (directions.new.keys ≡ directions.old.keys)) }
    ensures indexed { AreIndexed rows.new directions.new.keys }
{
    if !does_count(&row) {
        let_go_both(direction, earlier);
        return push_alone(rows, row);
    }
    add_counted(rows, directions, row, direction, earlier)
}

/// Takes off the last row and the last direction.
fn take_both(rows: &mut Items<Row>, directions: &mut IndexSet<Direction>)
    requires rows { rows.old ≢ [] }
    requires directions { directions.old.keys ≢ [] }
    ensures rows { (front : _) (row : _) → rows.old ≡ front ++ row ∷ [] → rows.new ≡ front }
    ensures directions { (front : _) (last : _) → directions.old.keys ≡ front ++ last ∷ [] → directions.new.keys ≡ front }
{
    take_last(rows);
    let count = directions.len();
    if count > 0 {
        directions.truncate(count - 1);
    }
}

/// Adds a row and a direction that isn't there yet. Refused memory leaves both as they were.
fn push_new(
    rows: &mut Items<Row>,
    directions: &mut IndexSet<Direction>,
    row: Row,
    direction: Direction,
) -> Result<(), AllocError>
    requires new { contains is_same directions.old direction ≡ false }
    ensures rows { OnOk result (rows.new ≡ rows.old ++ row ∷ []) }
    ensures directions { OnOk result (directions.new.keys ≡ directions.old.keys ++ direction ∷ []) }
    ensures kept { OnErr result (rows.new ≡ rows.old) }
    ensures cut { OnErr result (directions.new.keys ≡ directions.old.keys) }
{
    push(rows, directions, row, direction)
}

/// Notes the line of the last row; where it isn't noted, the last row and the last direction are taken off.
fn note_last(
    rows: &mut Items<Row>,
    directions: &mut IndexSet<Direction>,
    journal: &mut Journal,
    strict: bool,
    form: Lin,
) -> Result<(), Fail>
    requires rows { rows.old ≢ [] }
    requires directions { directions.old.keys ≢ [] }
    ensures rows { OnOk result (rows.new ≡ rows.old) }
    ensures directions { OnOk result (directions.new.keys ≡ directions.old.keys) }
    ensures lines { OnOk result (journal.new ≡ record journal.old { lines = journal.old.lines ++ Combine strict form ∷ [] }) }
    ensures taken { OnErr result ((front : _) (row : _) → rows.old ≡ front ++ row ∷ [] → rows.new ≡ front) }
    ensures cut { OnErr result ((front : _) (last : _) → directions.old.keys ≡ front ++ last ∷ [] → directions.new.keys ≡ front) }
    ensures kept { OnErr result (journal.new ≡ journal.old) }
    ensures steps { result ≡ Err Steps → counted_in journal.new.lines ≡ journal.new.limit }
    ensures number { (wide : WideAt) → result ≡ Err (Number wide) → ⊥ }
{
    match journal.note(Line::Combine { strict, row: form }) {
        Ok(()) => Ok(()),
        Err(JournalFail::Full) => {
            take_both(rows, directions);
            Err(Fail::Steps)
        }
        Err(JournalFail::Memory(failed)) => {
            take_both(rows, directions);
            Err(Fail::Memory(failed))
        }
    }
}

/// Adds a row with a direction that isn't there yet, and notes its line, which has this form; where it isn't noted, nothing changes.
fn note_line(
    rows: &mut Items<Row>,
    directions: &mut IndexSet<Direction>,
    journal: &mut Journal,
    row: Row,
    direction: Direction,
    form: Lin,
) -> Result<(), Fail>
    requires new { contains is_same directions.old direction ≡ false }
    ensures rows { OnOk result (rows.new ≡ rows.old ++ row ∷ []) }
    ensures directions { OnOk result (directions.new.keys ≡ directions.old.keys ++ direction ∷ []) }
    ensures lines { OnOk result (journal.new ≡ record journal.old { lines = journal.old.lines ++ Combine row.strict form ∷ [] }) }
    ensures taken { OnErr result (rows.new ≡ rows.old) }
    ensures cut { OnErr result (directions.new.keys ≡ directions.old.keys) }
    ensures kept { OnErr result (journal.new ≡ journal.old) }
    ensures steps { result ≡ Err Steps → counted_in journal.new.lines ≡ journal.new.limit }
    ensures number { (wide : WideAt) → result ≡ Err (Number wide) → ⊥ }
{
    let strict = row.strict;
    push_new(rows, directions, row, direction)?;
    note_last(rows, directions, journal, strict, form)
}

/// Notes the line of a row, and adds the row, which no row has the direction of; where the line isn't noted, nothing changes.
pub fn note(
    alloc: Global,
    rows: &mut Items<Row>,
    directions: &mut IndexSet<Direction>,
    journal: &mut Journal,
    row: Row,
    direction: Direction,
) -> Result<(), Fail>
    requires direction { IsDirectionOf row.lin direction.form }
    requires alone { IsEarlier row None }
    requires counts { DoesCount row }
    requires new { contains is_same directions.old direction ≡ false }
    requires indexed { AreIndexed rows.old directions.old.keys }
    ensures rows { OnOk result (rows.new ≡ rows.old ++ row ∷ []) }
    ensures lines { OnOk result (journal.new ≡ record journal.old { lines = journal.old.lines ++ Combine row.strict row.lin ∷ [] }) }
    ensures kept { OnErr result ((rows.new ≡ rows.old) × (journal.new ≡ journal.old)) }
    ensures indexed { AreIndexed rows.new directions.new.keys }
    ensures steps { result ≡ Err Steps → counted_in journal.new.lines ≡ journal.new.limit }
    ensures number { (wide : WideAt) → result ≡ Err (Number wide) → ⊥ }
{
    let form = copied(alloc, &row.lin)?;
    note_line(rows, directions, journal, row, direction, form)
}
