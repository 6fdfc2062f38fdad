//! The lines that a proof uses, found in one pass from the last line to the first.
ghost use Rattle.std.specs.Prelude.{◌≡◌, ◌↔◌, ◌<◌, ℕ, length, IfOk, IsTrue};
ghost use Rattle.std.specs.List.{Contains};
ghost use Rattle.ae_trim.specs.Used as spec;
ghost use Rattle.ae_trim.specs.Used.{HintEarlier, AreUsed};
ghost use Rattle.ae_trim.specs.Inner.Marks.{AreMarked, IsPassedOn, MarkUsed};

use ae_core::lists::List;
use ae_core::proofs::ClauseLine;
use std::alloc::{AllocError, Global};

/// The hints of a line.
fn hints_of(line: &ClauseLine) -> &[usize]
    ensures { result.now ≡ spec.hints_of line.now }
{
    match line {
        ClauseLine::Rup { hints, .. } => hints.as_slice(),
        _ => &[],
    }
}

/// Whether each of these places is before another.
fn are_before(places: &[usize], place: usize) -> bool
    ensures { IsTrue result ↔ ((k : ℕ) → Contains places.now k → k < place) }
{
    for other in places {
        if *other >= place {
            return false;
        }
    }
    true
}

/// Whether hints name earlier lines.
pub(crate) fn hint_earlier(lines: &[ClauseLine]) -> bool
    ensures { IsTrue result ↔ HintEarlier lines.now }
{
    for i in 0..lines.len() {
        if !are_before(hints_of(&lines[i]), i) {
            return false;
        }
    }
    true
}

/// Marks these places.
fn mark(marks: &mut Vec<bool>, places: &[usize])
    requires within { (k : ℕ) → Contains places.now k → k < length marks.old.items }
    ensures { AreMarked marks.old.items places.now marks.new.items }
{
    for place in places {
        marks[*place] = true;
    }
}

/// Marks the places that the line at this place hints, where that place is marked.
fn pass_on(lines: &[ClauseLine], marks: &mut Vec<bool>, place: usize)
    requires earlier { HintEarlier lines.now }
    requires within { place < length lines.now }
    requires size { length marks.old.items ≡ length lines.now }
    ensures { IsPassedOn lines.now place marks.old.items marks.new.items }
{
    let is_marked = marks[place];
    if is_marked {
        mark(marks, hints_of(&lines[place]));
    }
}

/// By each place, whether its line is used.
fn used_marks(alloc: Global, lines: &[ClauseLine]) -> Result<Vec<bool>, AllocError>
    requires earlier { HintEarlier lines.now }
    requires some { 0 < length lines.now }
    ensures { IfOk result (λ marks. MarkUsed lines.now marks.items) }
{
    let count = lines.len();
    let mut marks = vec![in alloc; false; count]?;
    marks[count - 1] = true;
    for done in 0..count {
        pass_on(lines, &mut marks, count - 1 - done);
    }
    Ok(marks)
}

/// The places that are marked, rising.
fn marked_places(
    alloc: Global,
    lines: &[ClauseLine],
    marks: &[bool],
) -> Result<List<usize>, AllocError>
    requires { MarkUsed lines.now marks.now }
    ensures { IfOk result (λ places. AreUsed lines.now places) }
{
    let mut places = List::new(alloc);
    for place in 0..marks.len() {
        if marks[place] {
            places.push(place)?;
        }
    }
    Ok(places)
}

/// The places of the used lines, rising.
pub(crate) fn used_places(alloc: Global, lines: &[ClauseLine]) -> Result<List<usize>, AllocError>
    requires earlier { HintEarlier lines.now }
    requires some { 0 < length lines.now }
    ensures { IfOk result (λ places. AreUsed lines.now places) }
{
    let marks = used_marks(alloc, lines)?;
    marked_places(alloc, lines, &marks)
}
