//! The least level at which a clause fires.
ghost use Rattle.std.specs.Prelude.{◌≡◌, ℕ, length, MatchBool, MatchOption};
ghost use Rattle.ae_sat.specs.Layers.{Fires, HoldsUpTo, IsFalseUpTo};
ghost use Rattle.ae_searching.specs.Inner.Starts.{AreOthersFalse, IsTrueUpTo, IsUnitUpTo, StartsAt, lesser};
ghost use Rattle.ae_searching.specs.Searching.{RestsBelow};

use ae_core::equality::same_lit;
use ae_core::formulas::Lit;
use ae_explain::Trail;
use ae_propagation::settle::{is_false, is_true};

/// From which level on a literal is false.
fn false_from(trail: &Trail, lit: &Lit) -> Option<usize>
    ensures { StartsAt (λ (k : ℕ). IsFalseUpTo trail.now.assigned k lit.now) result }
{
    let _assigned = trail.as_slice();
    if is_false(trail, lit) {
        Some(trail.level_of(lit))
    } else {
        None
    }
}

/// From which level on all literals of a clause but one are false.
fn others_false_from(trail: &Trail, clause: &[Lit], one: &Lit) -> Option<usize>
    ensures { StartsAt (λ (k : ℕ). AreOthersFalse trail.now.assigned clause.now (length clause.now) one.now k) result }
{
    let mut level = 0;
    for i in 0..clause.len() {
        if !same_lit(&clause[i], one) {
            match false_from(trail, &clause[i]) {
                None => return None,
                Some(its) => level = its.max(level),
            }
        }
    }
    Some(level)
}

/// The lesser of two numbers, where both are there.
fn lesser_of(one: Option<usize>, other: Option<usize>) -> Option<usize>
    ensures { result ≡ lesser one other }
{
    match one {
        None => other,
        Some(n) => match other {
            None => Some(n),
            Some(m) => Some(n.min(m)),
        },
    }
}

/// From which level on all literals of a clause but one are false, whichever that one is.
fn unit_from(trail: &Trail, clause: &[Lit]) -> Option<usize>
    ensures { StartsAt (IsUnitUpTo trail.now.assigned clause.now) result }
{
    if clause.is_empty() {
        return Some(0);
    }
    let mut least = None;
    for i in 0..clause.len() {
        least = lesser_of(others_false_from(trail, clause, &clause[i]), least);
    }
    least
}

/// Whether a literal is true at a level of at most this one.
fn is_true_by(trail: &Trail, lit: &Lit, level: usize) -> bool
    ensures { MatchBool result (HoldsUpTo trail.now.assigned level lit.now) (¬ HoldsUpTo trail.now.assigned level lit.now) }
{
    let _assigned = trail.as_slice();
    if is_true(trail, lit) {
        trail.level_of(lit) <= level
    } else {
        false
    }
}

/// Whether a literal of a clause is.
fn has_true_by(trail: &Trail, clause: &[Lit], level: usize) -> bool
    ensures { MatchBool result (IsTrueUpTo trail.now.assigned clause.now level) (¬ IsTrueUpTo trail.now.assigned clause.now level) }
{
    for i in 0..clause.len() {
        if is_true_by(trail, &clause[i], level) {
            return true;
        }
    }
    false
}

/// The least level at which a clause fires: all its literals but one at most are false then, and none is true.
pub fn firing_level(trail: &Trail, clause: &[Lit]) -> Option<usize>
    ensures { MatchOption result ((k : ℕ) → ¬ Fires trail.now.assigned clause.now k)
        (λ n. Fires trail.now.assigned clause.now n × RestsBelow trail.now.assigned n clause.now) }
{
    match unit_from(trail, clause) {
        None => None,
        Some(level) => {
            if has_true_by(trail, clause, level) {
                None
            } else {
                Some(level)
            }
        }
    }
}
