//! The matches of owners that are owed at a number.
ghost use Rattle.std.specs.Prelude.{◌≡◌, ◌<◌, [], ℕ, None, Ok, Some, IfOk, MatchBool, OnOk, length, slice_get};
ghost use Rattle.std.specs.List.{AllByRecursion, Contains};
ghost use Rattle.ae_between_rounds.specs.Between.{IsBetweenRounds};
ghost use Rattle.ae_between_rounds.specs.Owed.{AreOwed, IsOwedAt};
ghost use Rattle.ae_between_rounds.specs.declared.search.OwedAt.{OwedAt as OwedAtOf};
ghost use Rattle.ae_core.specs.Signatures.{IsLawfulProblem};
ghost use Rattle.ae_open_states.specs.Shown.{trail_literals};
ghost use Rattle.ae_owed_instances.specs.Inner.Passing.{HasNone, HaveNone, IsThere, lit_of, owed_of};
ghost use Rattle.ae_owners.specs.declared.owners.Owner.{Owner as OwnerOf};

use crate::asked::Asked;
use ae_between_rounds::search::{Owed, OwedAt, Search};
use ae_core::formulas::Formula;
use ae_core::lists::List;
use ae_explain::Trail;
use ae_owed_matches::finding::{found, owed};
use ae_owners::finding::is_signed;
use ae_owners::owners::Owner;
use ae_trigger::patterns::Subst;
use std::alloc::AllocError;

/// Whether a literal of this sign and formula is true.
fn stands(trail: &Trail, positive: bool, formula: &Formula) -> bool
    ensures { MatchBool result (Contains (trail_literals trail.now.assigned) (lit_of positive formula.now)) (¬ Contains (trail_literals trail.now.assigned) (lit_of positive formula.now)) }
{
    match trail.place_of(formula) {
        None => false,
        Some(place) => is_signed(positive, formula, trail.lit_at(place)),
    }
}

/// Whether an owner is an axiom, or a literal that is true.
fn is_there(search: &Search, owner: &Owner) -> bool
    ensures { MatchBool result (IsThere search.now owner.now) (¬ IsThere search.now owner.now) }
{
    match owner.place {
        Some(_place) => true,
        None => stands(search.solver.trail(), owner.positive, owner.formula.get()),
    }
}

/// The matches of the owner at a place that are owed at a number.
fn owed_by(
    task: Asked<'_>,
    search: &Search,
    number: u32,
    place: usize,
) -> Result<List<Subst>, AllocError>
    requires lawful { IsLawfulProblem task.problem.now }
    requires between { IsBetweenRounds task.problem.now task.goal task.generations search.now }
    requires below { number < task.generations }
    requires fits { number < 4294967295 }
    requires within { place < length search.now.owners }
    requires there { (w : OwnerOf) → slice_get search.now.owners place ≡ Some w → IsThere search.now w }
    ensures each { IfOk result (AllByRecursion (λ m. IsOwedAt task.entry.problem.now task.entry.goal search.now number (owed_of place m))) }
    ensures none { IfOk result (λ ms. ms ≡ [] → (w : OwnerOf) → slice_get search.now.owners place ≡ Some w → HasNone search.now number place w) }
{
    let owners = search.owners.as_slice();
    let owner = &owners[place];
    let patterns = owner.patterns.as_slice();
    let all = found(
        task.alloc,
        &task.problem.signature,
        &search.store,
        search.solver.theory(),
        &search.known,
        patterns,
        number,
    )?;
    let few = owed(
        task.alloc,
        &search.store,
        search.solver.theory(),
        &search.instances.taken,
        place,
        all.as_slice(),
    )?;
    Ok(few)
}

/// Puts them behind the others.
fn put_owed(
    task: Asked<'_>,
    search: &Search,
    number: u32,
    place: usize,
    all: &mut List<Owed>,
) -> Result<(), AllocError>
    requires lawful { IsLawfulProblem task.problem.now }
    requires between { IsBetweenRounds task.problem.now task.goal task.generations search.now }
    requires below { number < task.generations }
    requires fits { number < 4294967295 }
    requires within { place < length search.now.owners }
    requires there { (w : OwnerOf) → slice_get search.now.owners place ≡ Some w → IsThere search.now w }
    ensures each { OnOk result (AllByRecursion (IsOwedAt task.entry.problem.now task.entry.goal search.now number) all.old → AllByRecursion (IsOwedAt task.entry.problem.now task.entry.goal search.now number) all.new) }
    ensures before { OnOk result (all.new ≡ [] → all.old ≡ []) }
    ensures none { OnOk result (all.new ≡ [] → (w : OwnerOf) → slice_get search.now.owners place ≡ Some w → HasNone search.now number place w) }
{
    let mut owed = owed_by(task, search, number, place)?;
    while let Some(subst) = owed.pop() {
        all.push(Owed {
            owner: place,
            subst,
        })?;
    }
    Ok(())
}

/// Puts the matches of the owner at a place that are owed at a number behind the others, where it is an axiom, or a literal that is true.
fn put_there(
    task: Asked<'_>,
    search: &Search,
    number: u32,
    place: usize,
    all: &mut List<Owed>,
) -> Result<(), AllocError>
    requires lawful { IsLawfulProblem task.problem.now }
    requires between { IsBetweenRounds task.problem.now task.goal task.generations search.now }
    requires below { number < task.generations }
    requires fits { number < 4294967295 }
    requires within { place < length search.now.owners }
    ensures each { OnOk result (AllByRecursion (IsOwedAt task.entry.problem.now task.entry.goal search.now number) all.old → AllByRecursion (IsOwedAt task.entry.problem.now task.entry.goal search.now number) all.new) }
    ensures before { OnOk result (all.new ≡ [] → all.old ≡ []) }
    ensures none { OnOk result (all.new ≡ [] → (w : OwnerOf) → slice_get search.now.owners place ≡ Some w → IsThere search.now w → HasNone search.now number place w) }
{
    if !is_there(search, &search.owners.as_slice()[place]) {
        return Ok(());
    }
    put_owed(task, search, number, place, all)
}

/// The matches that are owed at a number.
fn owed_at(task: Asked<'_>, search: &Search, number: u32) -> Result<List<Owed>, AllocError>
    requires lawful { IsLawfulProblem task.problem.now }
    requires between { IsBetweenRounds task.problem.now task.goal task.generations search.now }
    requires below { number < task.generations }
    requires fits { number < 4294967295 }
    ensures each { IfOk result (AllByRecursion (IsOwedAt task.entry.problem.now task.entry.goal search.now number)) }
    ensures none { IfOk result (λ ws. ws ≡ [] → HaveNone search.now number (length search.now.owners)) }
{
    let mut all = List::new(task.alloc);
    for place in 0..search.owners.len() {
        put_there(task, search, number, place, &mut all)?;
    }
    Ok(all)
}

/// The matches that are owed at the least number at which some are; none where none is owed below the bound.
pub(crate) fn first_owed(task: Asked<'_>, search: &Search) -> Result<Option<OwedAt>, AllocError>
    requires lawful { IsLawfulProblem task.problem.now }
    requires between { IsBetweenRounds task.problem.now task.goal task.generations search.now }
    ensures found { (found : OwedAtOf) → result ≡ Ok (Some found) → AreOwed task.entry.problem.now task.entry.goal task.entry.generations search.now found }
    ensures none { result ≡ Ok None → (n : ℕ) → n < task.entry.generations → HaveNone search.now n (length search.now.owners) }
{
    for number in 0..task.generations {
        let owed = owed_at(task, search, number)?;
        if !owed.is_empty() {
            return Ok(Some(OwedAt { number, owed }));
        }
    }
    Ok(None)
}
