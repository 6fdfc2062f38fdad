//! Proofs cut down to the lines that they use.
ghost use Rattle.std.specs.Prelude.{◌≡◌, ◌↔◌, ◌<◌, ℕ, length, map, slice_index, Some, slice_get, IfOk, IsTrue};
ghost use Rattle.std.specs.List.{Contains};
ghost use Rattle.std.specs.List.Sorted.{IsStrictlyIncreasing};
ghost use Rattle.ae_core.specs.declared.problems.Problem.{Problem};
ghost use Rattle.ae_core.specs.declared.proofs.ClauseLine.{ClauseLine as Line};
ghost use Rattle.ae_rules.specs.Derivations.{Derives};
ghost use Rattle.ae_trim.specs.Used.{HintEarlier, AllUsed, AreUsed, hints_of};
ghost use Rattle.ae_trim.specs.Trimmed as spec;
ghost use Rattle.ae_trim.specs.Trimmed.{AreKept, IsTrimmed};
ghost use Rattle.ae_trim.specs.Inner.Marks.{AreNumbered};

use crate::copies::copy_line;
use crate::used::{hint_earlier, used_places};
use ae_core::copies::copy_clause;
use ae_core::lists::List;
use ae_core::proofs::{ClauseLine, Proof};
use std::alloc::{AllocError, Global};

/// By its old place, the new one of each line that is kept.
fn new_numbers(alloc: Global, places: &[usize], count: usize) -> Result<Vec<usize>, AllocError>
    requires rising { IsStrictlyIncreasing places.now }
    requires within { (k : ℕ) → Contains places.now k → k < count }
    ensures { IfOk result (λ numbers. AreNumbered places.now numbers.items) }
{
    let mut numbers = vec![in alloc; 0; count]?;
    for i in 0..places.len() {
        numbers[places[i]] = i;
    }
    Ok(numbers)
}

/// The hints with their new numbers.
fn renumbered_hints(
    alloc: Global,
    numbers: &[usize],
    hints: &[usize],
) -> Result<List<usize>, AllocError>
    requires { (k : ℕ) → Contains hints.now k → k < length numbers.now }
    ensures { IfOk result (λ ks. ks ≡ map (slice_index numbers.now) hints.now) }
{
    let mut renumbered = List::new(alloc);
    for hint in hints {
        renumbered.push(numbers[*hint])?;
    }
    Ok(renumbered)
}

/// A copy of a line, with its hints renumbered.
fn renumbered(alloc: Global, numbers: &[usize], line: &ClauseLine) -> Result<ClauseLine, AllocError>
    requires { (k : ℕ) → Contains (hints_of line.now) k → k < length numbers.now }
    ensures { IfOk result (λ l. l ≡ spec.renumbered (slice_index numbers.now) line.now) }
{
    match line {
        ClauseLine::Rup { clause, hints } => Ok(ClauseLine::Rup {
            clause: copy_clause(alloc, clause.as_slice())?,
            hints: renumbered_hints(alloc, numbers, hints.as_slice())?,
        }),
        _ => copy_line(alloc, line),
    }
}

/// Copies of the lines at these places, with their hints renumbered.
fn kept_lines(
    alloc: Global,
    lines: &[ClauseLine],
    places: &[usize],
    numbers: &[usize],
) -> Result<List<ClauseLine>, AllocError>
    requires within { (k : ℕ) → Contains places.now k → k < length lines.now }
    requires hints { (i k h : ℕ) (l : Line) → slice_get places.now i ≡ Some k → slice_get lines.now k ≡ Some l → Contains (hints_of l) h → h < length numbers.now }
    ensures { IfOk result (λ kept. AreKept (slice_index numbers.now) lines.now places.now kept) }
{
    let mut kept = List::new(alloc);
    for place in places {
        kept.push(renumbered(alloc, numbers, &lines[*place])?)?;
    }
    Ok(kept)
}

/// Whether a proof can be trimmed: there is a line, and hints name earlier lines.
pub fn can_be_trimmed(proof: &Proof) -> bool
    ensures { IsTrue result ↔ (HintEarlier proof.now.lines × (0 < length proof.now.lines)) }
{
    let lines = proof.lines.as_slice();
    !lines.is_empty() && hint_earlier(lines)
}

/// The used lines of a proof, in their order, with the hints renumbered: a line is used where it is the last, or is hinted by a used `rup`
/// line. The time is linear in the proof.
pub fn trim(alloc: Global, proof: &Proof) -> Result<Proof, AllocError>
    requires earlier { HintEarlier proof.now.lines }
    requires some { 0 < length proof.now.lines }
    ensures exact { IfOk result (IsTrimmed proof.now) }
    ensures used { IfOk result (λ trimmed. AllUsed trimmed.lines) }
    ensures earlier { IfOk result (λ trimmed. HintEarlier trimmed.lines) }
    ensures derives { IfOk result (λ trimmed. (p : Problem) (g : ℕ) → Derives p g proof.now → Derives p g trimmed) }
{
    let lines = proof.lines.as_slice();
    let places = used_places(alloc, lines)?;
    let numbers = new_numbers(alloc, places.as_slice(), lines.len())?;
    let kept = kept_lines(alloc, lines, places.as_slice(), &numbers)?;
    Ok(Proof { lines: kept })
}
