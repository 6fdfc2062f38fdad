//! How a clause stands to a trail, and unit propagation by plain scans.
ghost use Rattle.std.specs.Prelude.{◌≡◌, ◌≢◌, ℕ, ◌+◌, ◌<◌, List, length, MatchBool, MatchOption, IfOk, OnOk, slice_index_or};
ghost use Rattle.std.specs.List.{Contains};
ghost use Rattle.ae_explain.specs.Trail.{clause, IsFalse, IsLawful};
ghost use Rattle.ae_core.specs.declared.formulas.Lit.{Lit};
ghost use Rattle.ae_explain.specs.declared.trail.Assigned.{Assigned};
ghost use Rattle.ae_propagation.specs.Settled.{Holds, HasTrue, IsOpenAlone, Says, Grown, Ends, last_level};
ghost use Rattle.ae_propagation.specs.Inner.Scan.{Finds, IsNotFalse, IsUnitStep, open_all};

use ae_core::copies::copy_lit;
use ae_core::equality::same_lit;
use ae_core::formulas::{Clause, Lit};
use ae_explain::{Assigned, Trail};
use ae_steps::Steps;
use std::alloc::{AllocError, Global};
use std::sync::ledger::Ledger;

/// How a clause stands to a trail.
#[derive(Clone, Copy, Debug, PartialEq, Eq)]
pub enum ClauseState {
    /// A literal is true.
    True,
    /// All literals are false.
    False,
    /// All literals are false but the one at this place, which has no value.
    Unit(usize),
    /// No literal is true, and two have no value.
    Open,
}

/// What a scan of the clauses finds to do.
#[derive(Clone, Copy, Debug)]
pub(crate) enum Work {
    /// The clause is false.
    Conflict(usize),
    /// The clause makes its literal at this place true.
    Push(usize, usize),
    Nothing,
}

/// How unit propagation ends.
#[derive(Clone, Copy, Debug, PartialEq, Eq)]
pub enum Settled {
    /// No clause is false, and each one with all literals but one false has that one true.
    Quiet,
    /// The clause is false.
    Falsified(usize),
}

/// Whether a literal is true, in time logarithmic in the trail.
pub fn is_true(trail: &Trail, lit: &Lit) -> bool
    ensures { MatchBool result (Holds trail.now.assigned lit.now) (¬ Holds trail.now.assigned lit.now) }
{
    match trail.place_of(&lit.formula) {
        Some(place) => trail.lit_at(place).positive == lit.positive,
        None => false,
    }
}

/// Whether a literal is false, in time logarithmic in the trail.
pub fn is_false(trail: &Trail, lit: &Lit) -> bool
    ensures { MatchBool result (IsFalse trail.now.assigned lit.now) (¬ IsFalse trail.now.assigned lit.now) }
{
    match trail.place_of(&lit.formula) {
        Some(place) => trail.lit_at(place).positive != lit.positive,
        None => false,
    }
}

/// The place of a true literal.
fn true_one(trail: &Trail, clause: &[Lit]) -> Option<usize>
    ensures { MatchOption result ((m : Lit) → Contains clause.now m → ¬ Holds trail.now.assigned m) (λ k. HasTrue trail.now.assigned clause.now) }
{
    for i in 0..clause.len() {
        if is_true(trail, &clause[i]) {
            return Some(i);
        }
    }
    None
}

/// The place of a literal that isn't false.
fn open_one(trail: &Trail, clause: &[Lit]) -> Option<usize>
    ensures { MatchOption result ((m : Lit) → Contains clause.now m → IsFalse trail.now.assigned m) (λ k. IsNotFalse trail.now.assigned clause.now k) }
{
    for i in 0..clause.len() {
        if !is_false(trail, &clause[i]) {
            return Some(i);
        }
    }
    None
}

/// The place of a literal that isn't false and isn't this one.
fn other_open(trail: &Trail, clause: &[Lit], own: &Lit) -> Option<usize>
    ensures { MatchOption result ((m : Lit) → Contains clause.now m → m ≢ own.now → IsFalse trail.now.assigned m)
        (λ k. IsNotFalse trail.now.assigned clause.now k × ((d : Lit) → slice_index_or clause.now k d ≢ own.now)) }
{
    for i in 0..clause.len() {
        if !same_lit(&clause[i], own) && !is_false(trail, &clause[i]) {
            return Some(i);
        }
    }
    None
}

/// How a clause stands to a trail, uncounted.
fn state_of(trail: &Trail, clause: &[Lit]) -> ClauseState
    ensures { Says trail.now.assigned clause.now result }
{
    if let Some(_k) = true_one(trail, clause) {
        return ClauseState::True;
    }
    let Some(p) = open_one(trail, clause) else {
        return ClauseState::False;
    };
    match other_open(trail, clause, &clause[p]) {
        Some(_q) => ClauseState::Open,
        None => ClauseState::Unit(p),
    }
}

/// How a clause stands to a trail, counted as one step. A true literal counts first: a clause that has one is
/// `True`, whatever its others are.
pub fn clause_state<L: Ledger>(clause: &Clause, trail: &Trail, steps: &mut Steps<L>) -> ClauseState
    ensures state { Says trail.now.assigned clause.now result }
    ensures step { steps.new ≡ steps.old + 1 }
{
    steps.tick();
    state_of(trail, clause.as_slice())
}

/// What a scan finds to do.
fn find_work(trail: &Trail, clauses: &[Clause]) -> Work
    ensures { Finds trail.now.assigned clauses.now (length clauses.now) result }
{
    for k in 0..clauses.len() {
        match state_of(trail, clauses[k].as_slice()) {
            ClauseState::False => return Work::Conflict(k),
            ClauseState::Unit(p) => return Work::Push(k, p),
            ClauseState::True => {}
            ClauseState::Open => {}
        }
    }
    Work::Nothing
}

/// The level of the last literal, 0 where there is none.
pub fn level_now(trail: &Trail) -> usize
    ensures { result ≡ last_level trail.now.assigned }
{
    let n = trail.len();
    if n == 0 { 0 } else { trail.level_at(n - 1) }
}

/// The one open literal of a clause, as it becomes true by the clause.
pub(crate) fn unit_at(
    alloc: Global,
    clauses: &[Clause],
    trail: &Trail,
    k: usize,
    p: usize,
) -> Result<Assigned, AllocError>
    requires lawful { IsLawful trail.now.assigned clauses.now }
    requires within { k < length clauses.now }
    requires alone { IsOpenAlone trail.now.assigned (clause clauses.now k) p }
    ensures { IfOk result (λ a. IsUnitStep trail.now.assigned clauses.now k p a) }
{
    let lit = copy_lit(alloc, &clauses[k].as_slice()[p])?;
    let level = level_now(trail);
    let by = Some(k);
    Ok(Assigned { lit, level, by })
}

/// Makes the one open literal of a clause true.
fn push_unit(
    alloc: Global,
    clauses: &[Clause],
    trail: &mut Trail,
    k: usize,
    p: usize,
) -> Result<(), AllocError>
    requires lawful { IsLawful trail.old.assigned clauses.now }
    requires within { k < length clauses.now }
    requires alone { IsOpenAlone trail.old.assigned (clause clauses.now k) p }
    ensures lawful { IsLawful trail.new.assigned clauses.now }
    ensures grown { (first : List Assigned) → Grown first trail.old.assigned → Grown first trail.new.assigned }
    ensures falls { OnOk result (open_all trail.new.assigned clauses.now < open_all trail.old.assigned clauses.now) }
{
    let assigned = unit_at(alloc, clauses, trail, k, p)?;
    trail.assign(alloc, assigned)
}

/// Assigns the literals of unit clauses, each by its clause and at the last literal's level, until there is none, or a
/// clause is false. It looks at all clauses for each literal.
pub fn settle(alloc: Global, clauses: &[Clause], trail: &mut Trail) -> Result<Settled, AllocError>
    requires lawful { IsLawful trail.old.assigned clauses.now }
    ensures lawful { IsLawful trail.new.assigned clauses.now }
    ensures grown { Grown trail.old.assigned trail.new.assigned }
    ensures ends { IfOk result (λ r. Ends trail.new.assigned clauses.now r) }
{
    loop {
        match find_work(trail, clauses) {
            Work::Conflict(k) => return Ok(Settled::Falsified(k)),
            Work::Nothing => return Ok(Settled::Quiet),
            Work::Push(k, p) => push_unit(alloc, clauses, trail, k, p)?,
        }
    }
}
