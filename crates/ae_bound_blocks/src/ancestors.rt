//! The rows that a row is made of, found in one pass from it down.
ghost use Rattle.std.specs.Prelude.{◌≡◌, ◌<◌, ◌∷◌, [], ℕ, true, false, IfOk, length};
ghost use Rattle.std.specs.List.{Contains};
ghost use Rattle.ae_trim.specs.Used.{HintEarlier};
ghost use Rattle.ae_trim.specs.Inner.Marks.{AreMarked, IsPassedOn, MarkUsed};
ghost use Rattle.ae_bound_blocks.specs.Ancestors.{parents, sources};
ghost use Rattle.ae_bound_blocks.specs.Inner.Marks.{as_lines};

use ae_bounds::rows::{Origin, Row};
use std::alloc::{AllocError, Global};

/// Marks two rows.
fn mark_both(marks: &mut Vec<bool>, lower: usize, upper: usize)
    requires lower { lower < length marks.old.items }
    requires upper { upper < length marks.old.items }
    ensures { AreMarked marks.old.items (lower ∷ upper ∷ []) marks.new.items }
{
    marks[lower] = true;
    marks[upper] = true;
}

/// Marks the rows that a row combines.
fn mark_parents(marks: &mut Vec<bool>, from: Origin)
    requires within { (k : ℕ) → Contains (parents from) k → k < length marks.old.items }
    ensures { AreMarked marks.old.items (parents from) marks.new.items }
{
    match from {
        Origin::Assumed(_) => {}
        Origin::Combined { lower, upper } => mark_both(marks, lower, upper),
    }
}

/// Whether a row is made of those that it combines: rounding may be looked through.
fn is_combined(row: &Row, through: bool) -> bool
    ensures parents { result ≡ true → sources through row.now ≡ parents row.now.from }
    ensures none { result ≡ false → sources through row.now ≡ [] }
{
    through || row.unrounded.is_none()
}

/// Marks the rows of which a row is made.
fn mark_sources(row: &Row, through: bool, marks: &mut Vec<bool>)
    requires within { (k : ℕ) → Contains (sources through row.now) k → k < length marks.old.items }
    ensures { AreMarked marks.old.items (sources through row.now) marks.new.items }
{
    if is_combined(row, through) {
        mark_parents(marks, row.from);
    }
}

/// Marks the rows of which the row at this place is made, where that row is marked.
fn pass_on(rows: &[Row], through: bool, marks: &mut Vec<bool>, place: usize)
    requires earlier { HintEarlier (as_lines through rows.now) }
    requires within { place < length rows.now }
    requires size { length marks.old.items ≡ length rows.now }
    ensures { IsPassedOn (as_lines through rows.now) place marks.old.items marks.new.items }
{
    let is_marked = marks[place];
    if is_marked {
        mark_sources(&rows[place], through, marks);
    }
}

/// By each place, whether the last row is made of that row. Where not `through`, a row that was rounded is made of none.
pub fn ancestors(alloc: Global, rows: &[Row], through: bool) -> Result<Vec<bool>, AllocError>
    requires earlier { HintEarlier (as_lines through rows.now) }
    requires some { 0 < length rows.now }
    ensures { IfOk result (λ marks. MarkUsed (as_lines through rows.now) marks.items) }
{
    let count = rows.len();
    let mut marks = vec![in alloc; false; count]?;
    marks[count - 1] = true;
    for done in 0..count {
        pass_on(rows, through, &mut marks, count - 1 - done);
    }
    Ok(marks)
}
