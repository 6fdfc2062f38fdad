//! Tests of what `conflict_clause` asks of a trail and its clauses.
ghost use Rattle.std.specs.Prelude.{◌≡◌, ◌↔◌, ◌<◌, ◌≤◌, IsTrue, length};
ghost use Rattle.std.specs.List.{Contains};
ghost use Rattle.ae_explain.specs.Trail.{at, level_before, AreFalse, Enters, IsFalseBelow, IsLawful, IsReason, OthersAreFalse};

use crate::marks::clause_at;
use crate::trail::Trail;
use ae_core::equality::same_lit;
use ae_core::formulas::{Clause, Lit};

/// Whether a literal is false by the first `n` literals of a trail, in time logarithmic in the trail.
fn is_false_below(trail: &Trail, n: usize, lit: &Lit) -> bool
    requires within { n ≤ length trail.now.assigned }
    ensures { IsTrue result ↔ IsFalseBelow trail.now.assigned n lit.now }
{
    match trail.place_of(&lit.formula) {
        Some(place) => place < n && trail.lit_at(place).positive != lit.positive,
        None => false,
    }
}

/// Whether all literals of a clause are false by a trail, with a lookup for each of them.
pub fn are_false(trail: &Trail, clause: &[Lit]) -> bool
    ensures { IsTrue result ↔ AreFalse trail.now.assigned clause.now }
{
    for lit in clause {
        if !is_false_below(trail, trail.len(), lit) {
            return false;
        }
    }
    true
}

/// Whether a clause holds a literal.
fn holds(clause: &[Lit], wanted: &Lit) -> bool
    ensures { IsTrue result ↔ Contains clause.now wanted.now }
{
    for lit in clause {
        if same_lit(lit, wanted) {
            return true;
        }
    }
    false
}

/// Whether the literals of a clause other than `own` are false by the first `n` literals of a trail.
fn others_are_false(trail: &Trail, n: usize, own: &Lit, clause: &[Lit]) -> bool
    requires within { n ≤ length trail.now.assigned }
    ensures { IsTrue result ↔ OthersAreFalse trail.now.assigned n own.now clause.now }
{
    for lit in clause {
        if !same_lit(lit, own) && !is_false_below(trail, n, lit) {
            return false;
        }
    }
    true
}

/// Whether the clause of this number makes the literal at a place true after those before it.
fn is_reason(trail: &Trail, clauses: &[Clause], place: usize, number: usize) -> bool
    requires within { place < length trail.now.assigned }
    ensures { IsTrue result ↔ IsReason trail.now.assigned clauses.now place number }
{
    if clauses.len() <= number {
        return false;
    }
    let own = trail.lit_at(place);
    let clause = clause_at(clauses, number);
    holds(clause, own) && others_are_false(trail, place, own, clause)
}

/// The level before a place.
fn level_ahead(trail: &Trail, place: usize) -> usize
    requires within { place < length trail.now.assigned }
    ensures { result ≡ level_before trail.now.assigned place }
{
    if place == 0 {
        0
    } else {
        trail.level_at(place - 1)
    }
}

/// Whether the literal at a place begins the next level, or is of the level before it and has a reason.
fn enters(trail: &Trail, clauses: &[Clause], place: usize) -> bool
    requires within { place < length trail.now.assigned }
    ensures { IsTrue result ↔ Enters trail.now.assigned clauses.now place (at trail.now.assigned place).by }
{
    let before = level_ahead(trail, place);
    let level = trail.level_at(place);
    match trail.by_at(place) {
        Some(number) => level == before && is_reason(trail, clauses, place, number),
        None => before < level && level - before == 1,
    }
}

/// Whether each literal of a trail is a decision that begins the next level, or has the level of the literal before
/// it and a clause that holds it and whose other literals are false by earlier ones; a clause with a literal and its
/// opposite is no such clause. It takes a lookup for each literal of the reasons.
pub fn is_lawful(trail: &Trail, clauses: &[Clause]) -> bool
    ensures { IsTrue result ↔ IsLawful trail.now.assigned clauses.now }
{
    for place in 0..trail.as_slice().len() {
        if !enters(trail, clauses, place) {
            return false;
        }
    }
    true
}
