//! Turns until nothing is left to do.
ghost use Rattle.std.specs.Prelude.{◌≡◌, ℕ, Ok, Err, Some, IsTrue, IfOk, IfSome, OnOk};
ghost use Rattle.ae_journal.specs.Journals.{live, counted_in};
ghost use Rattle.ae_journal.specs.declared.answers.WideAt.{WideAt};
ghost use Rattle.ae_state.specs.Complete.{IsComplete, IsOwnConflict};
ghost use Rattle.ae_state.specs.Fitting.{FitsStore};
ghost use Rattle.ae_state.specs.Stepping.{IsInStep};
ghost use Rattle.ae_sweeps.specs.Given.{AreConstants};
ghost use Rattle.ae_theory.specs.Names.{terms_in};
ghost use Rattle.ae_theory.specs.declared.theory.Fail.TheVariants.{Steps as OutOfSteps, Number};
ghost use Rattle.ae_theory.specs.declared.theory.Outcome.TheVariants.{Complete, Conflict};
ghost use Rattle.ae_theory.specs.declared.theory.Outcome.{Outcome as OutcomeView};
ghost use Rattle.ae_turns.specs.Budget.{KeepsWithin};
ghost use Rattle.ae_turns.specs.Ending.{MayBeWide};
ghost use Rattle.ae_turns.specs.Leading.{Leads};
ghost use Rattle.ae_turns.specs.Representing.{IsTaken};
ghost use Rattle.ae_saturation.specs.Lasting.{IsCompleteFor, AreMetFrom};
ghost use Rattle.ae_saturation.specs.Inner.Saturated.{IsSaturated};

use crate::lasting::still_complete;
use crate::turning::turn;
use ae_constants::table::Forms;
use ae_core::lists::List;
use ae_journal::journal::Journal;
use ae_new_names::take_new;
use ae_state::Holding;
use ae_store::store::Store;
use ae_theory::theory::{Fail, Outcome};
use ae_turns::Found;
use std::alloc::{AllocError, Global};

/// For each name of a store, whether the linear form of its term is a number.
fn constants_of(alloc: Global, store: &Store) -> Result<List<bool>, AllocError>
    ensures { IfOk result (λ constants. AreConstants (terms_in store.now) constants) }
{
    let mut forms = Forms::new(alloc);
    forms.take_in(alloc, store)?;
    let mut constants = List::new(alloc);
    for name in 0..store.len() {
        constants.push(forms.is_constant(name))?;
    }
    Ok(constants)
}

/// Turn after turn, until one takes nothing up or comes to a conflict. Each of the others notes a counted line.
fn turns(
    alloc: Global,
    held: &mut Holding,
    store: &Store,
    constants: &[bool],
    journal: &mut Journal,
) -> Result<Outcome, Fail>
    requires taken { IsTaken held.old store.now }
    requires step { IsInStep held.old (live journal.old.lines) }
    requires constants { AreConstants (terms_in store.now) constants.now }
    ensures { IsSaturated store.now held.old journal.old result held.new journal.new }
{
    'turns: loop {
        match turn(alloc, held, store, constants, journal)? {
            Found::Nothing => return Ok(Outcome::Complete),
            Found::Advanced => {
                let _counted = journal.counted();
            }
            Found::Conflict(number) => return Ok(Outcome::Conflict(number)),
        }
    }
}

/// Takes in the names that have no values yet, and then goes on by turns.
fn settle(
    alloc: Global,
    held: &mut Holding,
    store: &Store,
    journal: &mut Journal,
) -> Result<Outcome, Fail>
    requires fits { FitsStore held.old store.now }
    requires step { IsInStep held.old (live journal.old.lines) }
    ensures { IsSaturated store.now held.old journal.old result held.new journal.new }
{
    let constants = constants_of(alloc, store)?;
    take_new(alloc, held, store, constants.as_slice())?;
    turns(alloc, held, store, constants.as_slice(), journal)
}

/// Whether what is known to be complete for the first of the assumed literals, as many as are told, is so for all of them and all names of the store.
fn has_lasted(held: &Holding, store: &Store, complete_for: Option<usize>) -> bool
    requires fits { FitsStore held.now store.now }
    requires known { IfSome complete_for (λ count. IsCompleteFor count held.now) }
    ensures taken { IsTrue result → IsTaken held.now store.now }
    ensures complete { IsTrue result → IsComplete held.now }
    ensures lasts { (count : ℕ) → complete_for ≡ Some count → IsTaken held.now store.now → AreMetFrom count store.now held.now → IsTrue result }
{
    match complete_for {
        Some(count) => still_complete(held, store, count),
        None => false,
    }
}

/// Gives all names of the store values, and takes up what the assumed literals, the names and the rules ask for, until nothing is left to do or the
/// assumed literals turn out to be contradictory.
///
/// `complete_for` tells of how many of the assumed literals, the first ones, what is held is known to be complete. Where it is so still, since all names
/// have values and the other literals are met, nothing is swept and nothing changes.
///
/// `Steps` comes only where the journal was full, `Number` only with a width that it licenses. A refusal leaves what is held right.
pub fn saturate(
    alloc: Global,
    held: &mut Holding,
    store: &Store,
    journal: &mut Journal,
    complete_for: Option<usize>,
) -> Result<Outcome, Fail>
    requires fits { FitsStore held.old store.now }
    requires step { IsInStep held.old (live journal.old.lines) }
    requires known { IfSome complete_for (λ count. IsCompleteFor count held.old) }
    ensures leads { Leads store.now held.old journal.old held.new journal.new }
    ensures taken { OnOk result (IsTaken held.new store.now) }
    ensures step { OnOk result (IsInStep held.new (live journal.new.lines)) }
    ensures complete { result ≡ Ok Complete → IsComplete held.new }
    ensures conflict { (k : ℕ) → result ≡ Ok (Conflict k) → IsOwnConflict held.new k }
    ensures steps { result ≡ Err OutOfSteps → counted_in journal.new.lines ≡ journal.new.limit }
    ensures number { (wide : WideAt) → result ≡ Err (Number wide) → MayBeWide store.now held.old journal.old.lines journal.new.lines wide }
    ensures budget { KeepsWithin OutcomeView store.now held.old journal.old.lines result held.new journal.new.lines }
    // The result lasts where nothing that it rests on has changed.
    ensures lasts { (count : ℕ) → complete_for ≡ Some count → IsTaken held.old store.now → AreMetFrom count store.now held.old
        → (result ≡ Ok Complete) × (held.new ≡ held.old) × (journal.new ≡ journal.old) }
{
    let lasting = has_lasted(held, store, complete_for);
    if lasting {
        return Ok(Outcome::Complete);
    }
    settle(alloc, held, store, journal)
}
