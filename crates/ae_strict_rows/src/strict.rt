//! The rows of the strict inequalities of a trail, and of those others of which no strict one is true.
ghost use Rattle.std.specs.Prelude.{◌≡◌, length, Ok, IfOk, IfSome};
ghost use Rattle.ae_inequalities.specs.declared.answer.Ineq.TheVariants.{Contradiction};
ghost use Rattle.ae_literal_rows.specs.Beside.{IsTold};
ghost use Rattle.ae_opaque_numbers.specs.Opaque.{AreOpaqueNumbers};
ghost use Rattle.ae_state.specs.Fitting.{FitsStore};
ghost use Rattle.ae_state.specs.Names.{system_now, terms_now};
ghost use Rattle.ae_strict_rows.specs.Found.{IsFoundIn};
ghost use Rattle.ae_strict_rows.specs.Inner.Within.{IsRight};
ghost use Rattle.ae_theory.specs.Names.{terms_in};
ghost use Rattle.ae_theory.specs.declared.theory.Explained.{Explained as ExplainedValue};

use ae_core::copies::copy_term;
use ae_core::formulas::{Formula, Lit};
use ae_core::lists::{Boxed, List};
use ae_core::terms::Term;
use ae_explain::Trail;
use ae_inequalities::answer::Ineq;
use ae_journal::journal::Journal;
use ae_literal_rows::State;
use ae_literal_rows::comparing::sides;
use ae_literal_rows::trails::other_rows;
use ae_propagation::settle::is_true;
use ae_store::store::Store;
use ae_theory::theory::{Explained, Fail};
use std::alloc::{AllocError, Global};

/// Whether one number is below another by a trail.
fn is_below(alloc: Global, trail: &Trail, lower: &Term, upper: &Term) -> Result<bool, AllocError> {
    let below = Boxed::new(
        alloc,
        Lit {
            positive: true,
            formula: Formula::Lt {
                left: copy_term(alloc, lower)?,
                right: copy_term(alloc, upper)?,
            },
        },
    )?;
    Ok(is_true(trail, below.get()))
}

/// Whether a literal says that one number isn't above another, and the trail that it is below.
fn is_weaker(alloc: Global, trail: &Trail, literal: &Lit) -> Result<bool, AllocError> {
    match sides(literal) {
        None => Ok(false),
        Some(found) => {
            if found.strict {
                return Ok(false);
            }
            is_below(alloc, trail, found.lower, found.upper)
        }
    }
}

/// Which literals of a trail are such.
fn weaker_ones(alloc: Global, trail: &Trail) -> Result<List<bool>, AllocError>
    ensures { IfOk result (λ flags. length flags ≡ length trail.now.assigned) }
{
    let mut flags = List::new(alloc);
    for place in 0..trail.len() {
        let weaker = is_weaker(alloc, trail, trail.lit_at(place))?;
        flags.push(weaker)?;
    }
    Ok(flags)
}

/// What the rows of the others come to.
fn found_without(
    alloc: Global,
    store: &Store,
    state: &State,
    trail: &Trail,
    limit: usize,
) -> Result<Ineq, Fail>
    requires fits { FitsStore state.now store.now }
    requires taken { terms_now state.now ≡ terms_in store.now }
    requires opaque { AreOpaqueNumbers store.now.signature (system_now state.now) }
    requires told { IsTold state.now store.now trail.now.assigned }
    ensures { (e : ExplainedValue) → result ≡ Ok (Contradiction e) → IsFoundIn store.now trail.now.assigned e }
{
    let system = state.system(alloc, store)?;
    let left_out = weaker_ones(alloc, trail)?;
    let mut rows = other_rows(
        alloc,
        store,
        state,
        &system,
        trail.as_slice(),
        left_out.as_slice(),
    )?;
    let mut journal = Journal::new(alloc, limit)?;
    rows.solve(alloc, store, &mut journal)
}

/// What the rows of the others come to.
#[derive(Drop)]
enum Found {
    /// They can't hold together.
    Contradiction(Explained),
    /// They come to no contradiction, as far as numbers have room.
    Nothing,
    /// They take more combinations.
    Unfinished,
}

/// What the rows of the others come to with at most so many combinations.
fn found_within(
    alloc: Global,
    store: &Store,
    state: &State,
    trail: &Trail,
    limit: usize,
) -> Result<Found, AllocError>
    requires fits { FitsStore state.now store.now }
    requires taken { terms_now state.now ≡ terms_in store.now }
    requires opaque { AreOpaqueNumbers store.now.signature (system_now state.now) }
    requires told { IsTold state.now store.now trail.now.assigned }
    ensures { IfOk result (IsRight store.now trail.now.assigned) }
{
    match found_without(alloc, store, state, trail, limit) {
        Ok(Ineq::Contradiction(explained)) => Ok(Found::Contradiction(explained)),
        Ok(Ineq::Point(_made)) => Ok(Found::Nothing),
        Ok(Ineq::Tight(_rows)) => Ok(Found::Nothing),
        Err(Fail::Number(_wide)) => Ok(Found::Nothing),
        Err(Fail::Steps) => Ok(Found::Unfinished),
        Err(Fail::Memory(failed)) => Err(failed),
    }
}

/// A block of inequalities of a trail that can't hold together, if their rows come to one with at most so many combinations; of two inequalities that differ in
/// strictness alone the strict one is taken.
pub fn strict_contradiction(
    alloc: Global,
    store: &Store,
    state: &State,
    trail: &Trail,
    limit: usize,
) -> Result<Option<Explained>, AllocError>
    requires fits { FitsStore state.now store.now }
    requires taken { terms_now state.now ≡ terms_in store.now }
    requires opaque { AreOpaqueNumbers store.now.signature (system_now state.now) }
    requires told { IsTold state.now store.now trail.now.assigned }
    ensures { IfOk result (λ o. IfSome o (IsFoundIn store.now trail.now.assigned)) }
{
    let found = found_within(alloc, store, state, trail, limit)?;
    match found {
        Found::Contradiction(explained) => Ok(Some(explained)),
        Found::Nothing => Ok(None),
        Found::Unfinished => Ok(None),
    }
}

/// The same, however many combinations it takes: with twice as many each time, until their rows come to something.
pub fn long_strict_contradiction(
    alloc: Global,
    store: &Store,
    state: &State,
    trail: &Trail,
) -> Result<Option<Explained>, AllocError>
    requires fits { FitsStore state.now store.now }
    requires taken { terms_now state.now ≡ terms_in store.now }
    requires opaque { AreOpaqueNumbers store.now.signature (system_now state.now) }
    requires told { IsTold state.now store.now trail.now.assigned }
    ensures { IfOk result (λ o. IfSome o (IsFoundIn store.now trail.now.assigned)) }
{
    let mut limit: usize = 1024;
    for _doubling in 0..64 {
        let found = found_within(alloc, store, state, trail, limit)?;
        match found {
            Found::Contradiction(explained) => return Ok(Some(explained)),
            Found::Nothing => return Ok(None),
            Found::Unfinished => {}
        }
        limit = limit.saturating_mul(2);
    }
    Ok(None)
}
