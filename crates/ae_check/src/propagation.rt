//! Unit propagation along hinted clauses, by the codes of their literals: each literal is looked up by its number.
ghost use Rattle.std.specs.Prelude.{◌≡◌, ◌<◌, ℕ, length, Some, None, MatchBool};
ghost use Rattle.std.specs.List.{list_all};
ghost use Rattle.ae_check.specs.Inner.Coding.{AreBefore};
ghost use Rattle.ae_check.specs.Inner.Coding as spec;

use crate::codes::{Code, Stamp, is_code, is_false, opposite, set_false};
use ae_core::lists::{List, at};

/// Whether a clause has a true literal.
fn has_true(stamps: &[Stamp], now: usize, codes: &[Code]) -> bool
    ensures { result ≡ spec.has_true now stamps.now codes.now }
{
    for code in codes {
        if is_false(stamps, now, opposite(*code)) {
            return true;
        }
    }
    false
}

/// Whether each literal of a clause is false.
fn all_false(stamps: &[Stamp], now: usize, codes: &[Code]) -> bool
    ensures { result ≡ spec.all_false now stamps.now codes.now }
{
    for code in codes {
        if !is_false(stamps, now, *code) {
            return false;
        }
    }
    true
}

/// Whether each literal is false or the given one.
fn all_settled(stamps: &[Stamp], now: usize, single: Code, codes: &[Code]) -> bool
    ensures { result ≡ list_all (spec.is_settled now stamps.now single) codes.now }
{
    for code in codes {
        if !(is_code(single, *code) || is_false(stamps, now, *code)) {
            return false;
        }
    }
    true
}

/// What becomes false with a clause: the opposite of its one literal that isn't false. There is none where a clause has no such literal, or several.
#[tactic(auto, using(crate::proofs::Stepping::next_skip, crate::proofs::Stepping::next_open, crate::proofs::Stepping::next_two, crate::proofs::Stepping::next_end))]
fn next_false(stamps: &[Stamp], now: usize, codes: &[Code]) -> Option<Code>
    ensures { result ≡ spec.next_false now stamps.now codes.now }
{
    for i in 0..codes.len() {
        let single = codes[i];
        if !is_false(stamps, now, single) {
            if !all_settled(stamps, now, single, &codes[i + 1..]) {
                return None;
            }
            return Some(opposite(single));
        }
    }
    None
}

/// Makes the literals of a clause false.
#[tactic(auto, using(crate::proofs::Stepping::fall_more, crate::proofs::Stepping::fall_end))]
fn falsify(stamps: &mut Vec<Stamp>, now: usize, codes: &[Code])
    ensures { stamps.new.items ≡ spec.all_stamped now stamps.old.items codes.now }
{
    for i in 0..codes.len() {
        set_false(stamps, now, codes[i]);
    }
}

/// Whether the last of the clauses is false.
fn ends_false(stamps: &[Stamp], now: usize, clauses: &[List<Code>], hint: usize) -> bool
    ensures { result ≡ spec.ends_false now stamps.now clauses.now hint }
{
    match at(clauses, hint) {
        None => false,
        Some(codes) => all_false(stamps, now, codes.as_slice()),
    }
}

/// Takes what a clause says into the false literals. Answers whether it has a true literal, or just one that isn't false.
fn propagate(stamps: &mut Vec<Stamp>, now: usize, clauses: &[List<Code>], hint: usize) -> bool
    ensures { MatchBool result (spec.advanced now stamps.old.items clauses.now hint ≡ Some stamps.new.items) ((spec.advanced now stamps.old.items clauses.now hint ≡ None) × (stamps.new.items ≡ stamps.old.items)) }
{
    let Some(codes) = at(clauses, hint) else {
        return false;
    };
    if has_true(stamps.as_slice(), now, codes.as_slice()) {
        return true;
    }
    match next_false(stamps.as_slice(), now, codes.as_slice()) {
        None => false,
        Some(code) => {
            set_false(stamps, now, code);
            true
        }
    }
}

/// Whether the clauses at these places, taken in this order with the literals of a clause false, lead to one that is false.
#[tactic(auto, using(crate::proofs::Stepping::refutes_on, crate::proofs::Stepping::refutes_stop, crate::proofs::Stepping::refutes_end))]
pub(crate) fn refutes(
    stamps: &mut Vec<Stamp>,
    now: usize,
    codes: &[Code],
    clauses: &[List<Code>],
    hints: &[usize],
) -> bool
    ensures answer { result ≡ spec.refutes now (spec.all_stamped now stamps.old.items codes.now) clauses.now hints.now }
    ensures size { length stamps.new.items ≡ length stamps.old.items }
    ensures before { (m : ℕ) → now < m → AreBefore m stamps.old.items → AreBefore m stamps.new.items }
{
    let count = hints.len();
    if count == 0 {
        return false;
    }
    falsify(stamps, now, codes);
    for i in 0..count - 1 {
        if !propagate(stamps, now, clauses, hints[i]) {
            return false;
        }
    }
    ends_false(stamps.as_slice(), now, clauses, hints[count - 1])
}
