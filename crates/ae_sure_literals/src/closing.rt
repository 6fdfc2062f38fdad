//! Unit propagation among the literals of a trail: a clause whose other literals are known to fail makes its literal known.
ghost use Rattle.std.specs.Prelude.{◌≡◌, ◌≢◌, ◌<◌, ℕ, length, Some, MatchBool, IfOk, OnOk};
ghost use Rattle.std.specs.List.{Contains};
ghost use Rattle.ae_explain.specs.Trail.{at};
ghost use Rattle.ae_rules.specs.Clauses.{opposite, row as row_of};
ghost use Rattle.ae_sure_literals.specs.Inner.Closing.{Closes, IsFlagged, IsMarked, IsOtherFailing, OthersFail, UsesAll, UsesClause, UsesClauses, UsesLiteral, UsesPlace, UsesPlaces, UsesRow, UsesRows, either, flag};

use ae_core::equality::{same_formula, same_lit};
use ae_core::formulas::{Clause, Lit};
use ae_core::lists::List;
use ae_explain::Trail;
use ae_propagation::settle::{is_false, is_true};
use ae_rules::rows::{called_rows, row};
use std::alloc::{AllocError, Global};

/// Whether one of two things is so.
fn one_of(left: bool, right: bool) -> bool
    ensures { result ≡ either left right }
{
    if left { true } else { right }
}

/// The flag of a literal's formula, where it stands.
fn flag_of(trail: &Trail, flags: &[bool], lit: &Lit) -> bool
    requires long { length flags.now ≡ length trail.now.assigned }
    ensures { (k : ℕ) → k < length trail.now.assigned → (at trail.now.assigned k).lit.formula ≡ lit.now.formula → result ≡ flag flags.now k }
{
    match trail.place_of(&lit.formula) {
        None => false,
        Some(place) => flags[place],
    }
}

/// Whether the opposite of a literal is flagged.
fn fails_surely(trail: &Trail, flags: &[bool], lit: &Lit) -> bool
    requires long { length flags.now ≡ length trail.now.assigned }
    ensures { MatchBool result (IsFlagged trail.now.assigned flags.now (opposite lit.now)) (¬ IsFlagged trail.now.assigned flags.now (opposite lit.now)) }
{
    if !is_false(trail, lit) {
        return false;
    }
    flag_of(trail, flags, lit)
}

/// Whether a literal is this one, or its opposite is flagged.
fn is_other_failing(trail: &Trail, flags: &[bool], own: &Lit, lit: &Lit) -> bool
    requires long { length flags.now ≡ length trail.now.assigned }
    ensures { MatchBool result (IsOtherFailing trail.now.assigned flags.now own.now lit.now) (¬ IsOtherFailing trail.now.assigned flags.now own.now lit.now) }
{
    if same_lit(lit, own) {
        return true;
    }
    fails_surely(trail, flags, lit)
}

/// Whether the opposites of all literals of a clause but one are flagged.
fn others_fail(trail: &Trail, flags: &[bool], clause: &[Lit], own: &Lit) -> bool
    requires long { length flags.now ≡ length trail.now.assigned }
    ensures { MatchBool result (OthersFail trail.now.assigned flags.now clause.now own.now) (¬ OthersFail trail.now.assigned flags.now clause.now own.now) }
{
    for lit in clause {
        if !is_other_failing(trail, flags, own, lit) {
            return false;
        }
    }
    true
}

/// Flags a literal, where it stands at the one place where its formula may stand and has no flag. Whether it did.
fn mark_at(trail: &Trail, flags: &mut List<bool>, lit: &Lit, place: usize) -> bool
    requires long { length flags.old ≡ length trail.now.assigned }
    requires within { place < length trail.now.assigned }
    requires only { (k : ℕ) → k < length trail.now.assigned → (at trail.now.assigned k).lit.formula ≡ lit.now.formula → place ≡ k }
    ensures { IsMarked trail.now.assigned lit.now flags.old flags.new result }
{
    if !is_true(trail, lit) {
        return false;
    }
    let flagged = flags.as_slice()[place];
    if flagged {
        return false;
    }
    flags.set(place, true);
    true
}

/// Flags a literal, where it stands in the trail and has no flag. Whether it did.
fn mark(trail: &Trail, flags: &mut List<bool>, lit: &Lit) -> bool
    requires long { length flags.old ≡ length trail.now.assigned }
    ensures { IsMarked trail.now.assigned lit.now flags.old flags.new result }
{
    match trail.place_of(&lit.formula) {
        None => false,
        Some(place) => mark_at(trail, flags, lit, place),
    }
}

/// Flags a literal of a clause, where the opposites of the others are flagged.
fn use_literal(trail: &Trail, flags: &mut List<bool>, clause: &[Lit], lit: &Lit) -> bool
    requires long { length flags.old ≡ length trail.now.assigned }
    requires among { Contains clause.now lit.now }
    ensures { UsesLiteral trail.now.assigned clause.now lit.now flags.old flags.new result }
{
    if !others_fail(trail, flags.as_slice(), clause, lit) {
        return false;
    }
    mark(trail, flags, lit)
}

/// Flags each literal of a clause where the opposites of the others are flagged.
fn use_clause(trail: &Trail, flags: &mut List<bool>, clause: &[Lit]) -> bool
    requires long { length flags.old ≡ length trail.now.assigned }
    ensures { UsesClause trail.now.assigned clause.now flags.old flags.new result }
{
    let mut changed = false;
    for lit in clause {
        let more = use_literal(trail, flags, clause, lit);
        changed = one_of(changed, more);
    }
    changed
}

/// The same for each of some clauses.
fn use_clauses(trail: &Trail, flags: &mut List<bool>, clauses: &[Clause]) -> bool
    requires long { length flags.old ≡ length trail.now.assigned }
    ensures { UsesClauses trail.now.assigned clauses.now flags.old flags.new result }
{
    let mut changed = false;
    for clause in clauses {
        let more = use_clause(trail, flags, clause.as_slice());
        changed = one_of(changed, more);
    }
    changed
}

/// Whether a literal is the opposite of another.
fn is_opposite(lit: &Lit, other: &Lit) -> bool
    ensures { MatchBool result (lit.now ≡ opposite other.now) (lit.now ≢ opposite other.now) }
{
    if lit.positive == other.positive {
        return false;
    }
    same_formula(&lit.formula, &other.formula)
}

/// Whether the opposite of a literal is in a clause.
fn has_opposite(clause: &[Lit], lit: &Lit) -> bool
    ensures { MatchBool result (Contains clause.now (opposite lit.now)) (¬ Contains clause.now (opposite lit.now)) }
{
    for other in clause {
        if is_opposite(other, lit) {
            return true;
        }
    }
    false
}

/// Uses a defining clause of the literal at a place, where the clause has its opposite.
fn use_defining(
    trail: &Trail,
    flags: &mut List<bool>,
    place: usize,
    number: usize,
    clause: &[Lit],
) -> bool
    requires long { length flags.old ≡ length trail.now.assigned }
    requires within { place < length trail.now.assigned }
    requires states { row_of number (at trail.now.assigned place).lit.formula ≡ Some clause.now }
    ensures { UsesRow trail.now.assigned place number flags.old flags.new result }
{
    if !has_opposite(clause, trail.lit_at(place)) {
        return false;
    }
    use_clause(trail, flags, clause)
}

/// Uses a row of the literal at a place.
fn use_row(
    alloc: Global,
    trail: &Trail,
    flags: &mut List<bool>,
    place: usize,
    number: usize,
) -> Result<bool, AllocError>
    requires long { length flags.old ≡ length trail.now.assigned }
    requires within { place < length trail.now.assigned }
    ensures { IfOk result (λ changed. UsesRow trail.now.assigned place number flags.old flags.new changed) }
{
    match row(alloc, number, &trail.lit_at(place).formula)? {
        None => Ok(false),
        Some(clause) => Ok(use_defining(trail, flags, place, number, clause.as_slice())),
    }
}

/// Uses the rows of the literal at a place.
fn use_rows(
    alloc: Global,
    trail: &Trail,
    flags: &mut List<bool>,
    place: usize,
) -> Result<bool, AllocError>
    requires long { length flags.old ≡ length trail.now.assigned }
    requires within { place < length trail.now.assigned }
    ensures { IfOk result (λ changed. UsesRows trail.now.assigned place flags.old flags.new changed) }
{
    let rows = called_rows(alloc, trail.lit_at(place))?;
    let mut changed = false;
    for number in rows.as_slice() {
        let more = use_row(alloc, trail, flags, place, *number)?;
        changed = one_of(changed, more);
    }
    Ok(changed)
}

/// Uses the rows of the literal at a place, where it is flagged.
fn use_place(
    alloc: Global,
    trail: &Trail,
    flags: &mut List<bool>,
    place: usize,
) -> Result<bool, AllocError>
    requires long { length flags.old ≡ length trail.now.assigned }
    requires within { place < length trail.now.assigned }
    ensures { IfOk result (λ changed. UsesPlace trail.now.assigned place flags.old flags.new changed) }
{
    let flagged = flags.as_slice()[place];
    if !flagged {
        return Ok(false);
    }
    use_rows(alloc, trail, flags, place)
}

/// Uses the rows of all literals that are flagged.
fn use_places(alloc: Global, trail: &Trail, flags: &mut List<bool>) -> Result<bool, AllocError>
    requires long { length flags.old ≡ length trail.now.assigned }
    ensures { IfOk result (λ changed. UsesPlaces trail.now.assigned (length trail.now.assigned) flags.old flags.new changed) }
{
    let mut changed = false;
    for place in 0..trail.len() {
        let more = use_place(alloc, trail, flags, place)?;
        changed = one_of(changed, more);
    }
    Ok(changed)
}

/// Uses all clauses and all rows once.
fn use_all(
    alloc: Global,
    trail: &Trail,
    clauses: &[Clause],
    flags: &mut List<bool>,
) -> Result<bool, AllocError>
    requires long { length flags.old ≡ length trail.now.assigned }
    ensures { IfOk result (λ changed. UsesAll trail.now.assigned clauses.now flags.old flags.new changed) }
{
    let by_clauses = use_clauses(trail, flags, clauses);
    let by_rows = use_places(alloc, trail, flags)?;
    Ok(one_of(by_clauses, by_rows))
}

/// Flags what follows by the clauses and the rows of what is flagged, until nothing does.
pub(crate) fn close(
    alloc: Global,
    trail: &Trail,
    clauses: &[Clause],
    flags: &mut List<bool>,
) -> Result<(), AllocError>
    requires long { length flags.old ≡ length trail.now.assigned }
    ensures { OnOk result (Closes trail.now.assigned clauses.now flags.old flags.new) }
{
    'rounds: loop {
        let changed = use_all(alloc, trail, clauses, flags)?;
        if !changed {
            return Ok(());
        }
    }
}
