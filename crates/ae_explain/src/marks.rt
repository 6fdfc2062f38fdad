//! Marks on the places of a trail: the literals on which a conflict stands.
ghost use Rattle.std.specs.Prelude.{◌≡◌, ◌≢◌, ℕ, ◌+◌, ◌<◌, true, Bool, None, length, slice_set, IsTrue, ◌↔◌, ◌⊎◌};
ghost use Rattle.ae_explain.specs.declared.marks.Mark.TheVariants.{Resolved};
ghost use Rattle.ae_explain.specs.Trail.{at, clause, IsLawful};
ghost use Rattle.ae_explain.specs.Inner.Marks.{kept, marked, kept_at, KeepsPlace, KeepsLit, KeepsClause, Resolves, State};

use crate::trail::Trail;
use ae_core::formulas::{Clause, Lit};

/// What is known of a place: nothing; that its literal is kept for the clause that is learnt; or that its reason
/// stands for it.
#[derive(Clone, Copy, PartialEq, Eq)]
pub enum Mark {
    Blank,
    Kept,
    Resolved,
}

/// Keeps a place of which nothing is known. Answers how many places of the level are kept then.
fn keep_place(trail: &Trail, place: usize, level: usize, marks: &mut [Mark], count: usize) -> usize
    requires len { length marks.old ≡ length trail.now.assigned }
    requires within { place < length trail.now.assigned }
    requires count { count ≡ kept_at trail.now.assigned marks.old level }
    ensures kept { KeepsPlace marks.old marks.new place }
    ensures count { result ≡ kept_at trail.now.assigned marks.new level }
{
    if marks[place] != Mark::Blank {
        return count;
    }
    prove!(count < marks.len());
    marks[place] = Mark::Kept;
    if trail.level_at(place) == level {
        count + 1
    } else {
        count
    }
}

/// Keeps the place of a literal's formula. Answers how many places of the level are kept then.
fn keep_lit(trail: &Trail, lit: &Lit, level: usize, marks: &mut [Mark], count: usize) -> usize
    requires len { length marks.old ≡ length trail.now.assigned }
    requires count { count ≡ kept_at trail.now.assigned marks.old level }
    ensures kept { KeepsLit trail.now.assigned marks.old marks.new lit.now }
    ensures count { result ≡ kept_at trail.now.assigned marks.new level }
{
    match trail.place_of(&lit.formula) {
        Some(place) => keep_place(trail, place, level, marks, count),
        None => count,
    }
}

/// Keeps the places of a clause's formulas. Answers how many places of the level are kept then.
pub fn keep_clause(
    trail: &Trail,
    clause: &[Lit],
    level: usize,
    marks: &mut [Mark],
    count: usize,
) -> usize
    requires len { length marks.old ≡ length trail.now.assigned }
    requires count { count ≡ kept_at trail.now.assigned marks.old level }
    ensures kept { KeepsClause trail.now.assigned marks.old marks.new clause.now }
    ensures count { result ≡ kept_at trail.now.assigned marks.new level }
{
    let mut count = count;
    for lit in clause {
        count = keep_lit(trail, lit, level, marks, count);
    }
    count
}

/// Lets a kept place go. Answers how many places of the level are kept then.
fn let_go(trail: &Trail, place: usize, level: usize, marks: &mut [Mark], count: usize) -> usize
    requires len { length marks.old ≡ length trail.now.assigned }
    requires within { place < length trail.now.assigned }
    requires kept { kept marks.old place ≡ true }
    requires count { count ≡ kept_at trail.now.assigned marks.old level }
    ensures marks { marks.new ≡ slice_set marks.old place Resolved }
    ensures count { result ≡ kept_at trail.now.assigned marks.new level }
{
    marks[place] = Mark::Resolved;
    if trail.level_at(place) == level {
        count - 1
    } else {
        count
    }
}

/// The literals of the clause at a place.
pub fn clause_at(clauses: &[Clause], number: usize) -> &[Lit]
    requires within { number < length clauses.now }
    ensures { result.now ≡ clause clauses.now number }
{
    clauses[number].as_slice()
}

/// Lets a kept place give way to the other literals of its reason. Answers how many places of the level are kept then.
fn resolve_at(
    trail: &Trail,
    clauses: &[Clause],
    place: usize,
    level: usize,
    marks: &mut [Mark],
    count: usize,
) -> usize
    requires lawful { IsLawful trail.now.assigned clauses.now }
    requires len { length marks.old ≡ length trail.now.assigned }
    requires within { place < length trail.now.assigned }
    requires reason { (at trail.now.assigned place).by ≢ None }
    requires kept { kept marks.old place ≡ true }
    requires count { count ≡ kept_at trail.now.assigned marks.old level }
    ensures resolves { Resolves trail.now.assigned clauses.now marks.old marks.new place }
    ensures count { result ≡ kept_at trail.now.assigned marks.new level }
{
    let left = let_go(trail, place, level, marks, count);
    match trail.by_at(place) {
        Some(number) => keep_clause(trail, clause_at(clauses, number), level, marks, left),
        None => unreachable!(),
    }
}

/// Whether a kept place of this level gives way: one of level 0 does, and one of the greatest level where another one of that level is kept.
fn gives_way(its: usize, level: usize, count: usize) -> bool
    ensures { IsTrue result ↔ ((its ≡ 0) ⊎ ((its ≡ level) × (1 < count))) }
{
    its == 0 || its == level && 1 < count
}

/// Goes over one place. Answers how many places of the level are kept then.
fn go_over(
    trail: &Trail,
    clauses: &[Clause],
    place: usize,
    level: usize,
    marks: &mut [Mark],
    count: usize,
) -> usize
    requires lawful { IsLawful trail.now.assigned clauses.now }
    requires within { place < length trail.now.assigned }
    requires before { State trail.now.assigned clauses.now marks.old level (place + 1) count }
    ensures after { State trail.now.assigned clauses.now marks.new level place result }
    ensures grows { (p : ℕ) → marked marks.old p ≡ true → marked marks.new p ≡ true }
{
    if marks[place] != Mark::Kept {
        return count;
    }
    if !gives_way(trail.level_at(place), level, count) {
        return count;
    }
    resolve_at(trail, clauses, place, level, marks, count)
}

/// Goes over all places from the end of the trail to its start: what is kept then are the literals to learn.
pub fn resolve(trail: &Trail, clauses: &[Clause], level: usize, marks: &mut [Mark], count: usize)
    requires lawful { IsLawful trail.now.assigned clauses.now }
    requires before { State trail.now.assigned clauses.now marks.old level (length trail.now.assigned) count }
    ensures after { (left : ℕ) × State trail.now.assigned clauses.now marks.new level 0 left }
    ensures grows { (p : ℕ) → marked marks.old p ≡ true → marked marks.new p ≡ true }
{
    let mut left = count;
    let mut place = trail.len();
    while 0 < place {
        place -= 1;
        left = go_over(trail, clauses, place, level, marks, left);
    }
}
