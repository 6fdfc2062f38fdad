//! In which order two rules were paired, by the lines that stand.
ghost use Rattle.std.specs.Prelude.{◌≡◌, ◌+◌, ◌<◌, ◌≤◌, ◌^◌, ◌++◌, ◌∷◌, [], ℕ, List, min, MatchBool, Some, None};
ghost use Rattle.std.specs.List.{Contains};
ghost use Rattle.ae_gaps.specs.Inner.Overlapping.{ArePairedInOrder, AreNotPairedInOrder};
ghost use Rattle.ae_gaps.specs.Inner.Places.{IsPlaced};
ghost use Rattle.ae_journal.specs.Journals.{live, after_line, decisions};
ghost use Rattle.ae_journal.specs.declared.lines.Line.{Line as LineView};
ghost use Rattle.ae_journal.specs.declared.lines.Line.TheVariants as written;
ghost use Rattle.ae_monoid.specs.Rules.{rule_at};

use ae_core::equality::{same_head, same_sorts};
use ae_core::problems::AcSymbol;
use ae_journal::lines::Line;
use ae_monoid::Rules;
use ae_num::forms::Name;

/// How many decisions stand, and how many stood where a line was first noted, if that line stands.
#[derive(Clone, Copy)]
pub(crate) struct Place {
    decided: usize,
    noted: Option<usize>,
}

/// Whether two lists of names are the same.
fn same_names(left: &[Name], right: &[Name]) -> bool
    ensures { MatchBool result (left.now ≡ right.now) (left.now ≡ right.now → ⊥) }
{
    left == right
}

/// Whether two symbols are the same.
fn same_symbol(left: &AcSymbol, right: &AcSymbol) -> bool
    ensures { MatchBool result (left.now ≡ right.now) (left.now ≡ right.now → ⊥) }
{
    same_head(left.head, right.head) && same_sorts(left.sorts.as_slice(), right.sorts.as_slice())
}

/// Whether a line pairs two left sides, in this order.
fn pairs_sides(line: &Line, symbol: &AcSymbol, left: &[Name], right: &[Name]) -> bool
    ensures { MatchBool result (line.now ≡ written.Pair symbol.now left.now right.now) (line.now ≡ written.Pair symbol.now left.now right.now → ⊥) }
{
    match line {
        Line::Pair {
            symbol: of,
            first,
            second,
        } => {
            same_symbol(of, symbol)
                && same_names(first.as_slice(), left)
                && same_names(second.as_slice(), right)
        }
        _ => false,
    }
}

/// The lesser of two numbers.
fn lesser(left: usize, right: usize) -> usize
    ensures { result ≡ min left right }
{
    if left < right { left } else { right }
}

/// How many decisions stood where a line was first noted, if it stands after all decisions but the first `kept` were undone.
fn still_noted(noted: Option<usize>, kept: usize) -> Option<usize>
    ensures stays { (k : ℕ) → result ≡ Some k → (noted ≡ Some k) × (k ≤ kept) }
    ensures gone { (k : ℕ) → result ≡ None → noted ≡ Some k → kept < k }
{
    match noted {
        Some(decided) => { if decided <= kept { Some(decided) } else { None } }
        None => None,
    }
}

/// The place of a line after it was noted, perhaps once more.
fn noted_here(place: Place) -> Place
    ensures placed { (lines : List LineView) (x : LineView) → decisions (x ∷ []) ≡ [] → IsPlaced lines x place → IsPlaced (lines ++ x ∷ []) x result }
    ensures same { result.decided ≡ place.decided }
{
    match place.noted {
        Some(_) => place,
        None => Place {
            decided: place.decided,
            noted: Some(place.decided),
        },
    }
}

/// The place of the line that pairs two left sides, in this order, after one more line.
fn moved(place: Place, line: &Line, symbol: &AcSymbol, left: &[Name], right: &[Name]) -> Place
    requires room { place.decided + 1 < 2 ^ 64 }
    ensures placed { (lines : List LineView) → IsPlaced lines (written.Pair symbol.now left.now right.now) place
        → IsPlaced (after_line lines line.now) (written.Pair symbol.now left.now right.now) result }
    ensures few { result.decided ≤ place.decided + 1 }
{
    match line {
        Line::Decide(_) => Place {
            decided: place.decided + 1,
            noted: place.noted,
        },
        Line::Back(kept) => Place {
            decided: lesser(*kept, place.decided),
            noted: still_noted(place.noted, *kept),
        },
        _ => {
            if pairs_sides(line, symbol, left, right) {
                return noted_here(place);
            }
            place
        }
    }
}

/// Whether the line that pairs two left sides, in this order, stands after the lines.
fn is_noted(lines: &[Line], symbol: &AcSymbol, left: &[Name], right: &[Name]) -> bool
    ensures { MatchBool result (Contains (live lines.now) (written.Pair symbol.now left.now right.now)) (Contains (live lines.now) (written.Pair symbol.now left.now right.now) → ⊥) }
{
    let mut place = Place {
        decided: 0,
        noted: None,
    };
    for line in lines {
        place = moved(place, line, symbol, left, right);
    }
    place.noted.is_some()
}

/// Whether the line that pairs two rules, in this order, stands after the lines; so too where one of them doesn't stand. It takes no memory.
pub(crate) fn paired_in_order(rules: &Rules, lines: &[Line], first: usize, second: usize) -> bool
    ensures { MatchBool result (ArePairedInOrder (λ n. rule_at rules.now n) lines.now first second) (AreNotPairedInOrder (λ n. rule_at rules.now n) lines.now first second) }
{
    let Some(one) = rules.rule(first) else {
        return true;
    };
    let Some(other) = rules.rule(second) else {
        return true;
    };
    let left = one.entry.left.as_slice();
    let right = other.entry.left.as_slice();
    is_noted(lines, &one.entry.symbol, left, right)
}
