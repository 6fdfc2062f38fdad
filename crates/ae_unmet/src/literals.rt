//! What assumed literals say that isn't met yet.
ghost use Rattle.std.specs.Prelude.{◌≡◌, ◌<◌, ℕ, Ok, Err, OnOk, IfSome};
ghost use Rattle.ae_settled.specs.Met.{AreMet};
ghost use Rattle.ae_state.specs.Names.{assumed_in};
ghost use Rattle.ae_theory.specs.Noting.{literals};
ghost use Rattle.ae_turns.specs.declared.found.Found.{Found as FoundView};
ghost use Rattle.ae_turns.specs.Budget.{KeepsWithin};
ghost use Rattle.ae_turns.specs.Ending.{MayBeWide, seen};
ghost use Rattle.ae_journal.specs.Journals.{live, counted_in};
ghost use Rattle.ae_journal.specs.declared.answers.WideAt.{WideAt};
ghost use Rattle.ae_literals.specs.declared.unmet.Unmet.TheVariants.{LeftOut};
ghost use Rattle.ae_state.specs.Complete.{IsOwnConflict, AreWellSorted};
ghost use Rattle.ae_state.specs.Stepping.{IsInStep};
ghost use Rattle.ae_theory.specs.declared.theory.Fail.TheVariants.{Steps as OutOfSteps, Number};
ghost use Rattle.ae_turns.specs.declared.found.Found.TheVariants.{Nothing, Advanced, Conflict};
ghost use Rattle.ae_turns.specs.Leading.{Leads};
ghost use Rattle.ae_turns.specs.Representing.{IsTaken, AreRepresentatives};
ghost use Rattle.ae_unmet.specs.Inner.Ending.{IsTakenUp, IsWhyNothing};
ghost use Rattle.ae_unmet.specs.Inner.Found.{IsFound};

use crate::conflicts::{contradicted, fraction, mixed, opposed};
use crate::saying::{first_found, is_sorted_at, said_at};
use crate::stating::state_literal;
use ae_journal::journal::Journal;
use ae_literals::laws::literals_of_which_none_is_unmet_are_met;
use ae_literals::{Said, Unmet};
use ae_num::forms::Name;
use ae_solving::name_equation;
use ae_state::Holding;
use ae_store::store::Store;
use ae_theory::theory::Fail;
use ae_turns::Found;
use ae_whole_values::laws::values_of_integers_are_whole;
use std::alloc::Global;

/// Takes up an equation whose sides have different values, which the literal at a place says: it is solved.
fn left_out(
    alloc: Global,
    held: &mut Holding,
    store: &Store,
    journal: &mut Journal,
    place: usize,
) -> Result<Found, Fail>
    requires taken { IsTaken held.old store.now }
    requires step { IsInStep held.old (live journal.old.lines) }
    requires found { IsFound store.now held.old (LeftOut place) }
    ensures { IsTakenUp store.now held.old journal.old held.new journal.new ⊥ result }
{
    match said_at(held, place) {
        Said::Equal { left, right, .. } => {
            let step = state_literal(held, store, place, left, right)?;
            name_equation(alloc, held, store, journal, left, right, step)
        }
        Said::Atom { .. } => unreachable!(),
        Said::Other => unreachable!(),
    }
}

/// Takes up something that isn't met. Nothing happens only where two literals are opposed that aren't well sorted.
fn take_up_found(
    alloc: Global,
    held: &mut Holding,
    store: &Store,
    journal: &mut Journal,
    unmet: Unmet,
) -> Result<Found, Fail>
    requires taken { IsTaken held.old store.now }
    requires step { IsInStep held.old (live journal.old.lines) }
    requires found { IsFound store.now held.old unmet }
    ensures { IsTakenUp store.now held.old journal.old held.new journal.new (AreWellSorted held.old → ⊥) result }
{
    match unmet {
        Unmet::LeftOut(place) => left_out(alloc, held, store, journal, place),
        Unmet::Contradicted(place) => {
            let number = contradicted(alloc, held, store, place)?;
            Ok(Found::Conflict(number))
        }
        Unmet::Opposed { positive, negative } => {
            let sorted = is_sorted_at(alloc, held, positive)?;
            if !sorted {
                return Ok(Found::Nothing);
            }
            let number = opposed(alloc, held, store, positive, negative)?;
            Ok(Found::Conflict(number))
        }
        Unmet::Mixed { first, second } => {
            let number = mixed(alloc, held, store, first, second)?;
            Ok(Found::Conflict(number))
        }
    }
}

/// Takes up what isn't met, and else the first value of an integer that isn't whole.
fn take_up(
    alloc: Global,
    held: &mut Holding,
    store: &Store,
    journal: &mut Journal,
    unmet: Option<Unmet>,
) -> Result<Found, Fail>
    requires taken { IsTaken held.old store.now }
    requires step { IsInStep held.old (live journal.old.lines) }
    requires found { IfSome unmet (IsFound store.now held.old) }
    ensures { IsTakenUp store.now held.old journal.old held.new journal.new (IsWhyNothing held.old unmet) result }
{
    match unmet {
        Some(found) => take_up_found(alloc, held, store, journal, found),
        None => {
            let conflict = fraction(held)?;
            match conflict {
                Some(number) => Ok(Found::Conflict(number)),
                None => Ok(Found::Nothing),
            }
        }
    }
}

/// Takes up what assumed literals say that isn't met: an equation whose sides have different values is solved; literals that contradict each other or the
/// values, two constructors of one value, and a value that no integer has are conflicts. `Nothing` comes only where all are met, and then nothing changes.
///
/// `Steps` comes only where the journal was full, `Number` only with a width that it licenses. A refusal leaves what is held right.
pub fn take_up_unmet(
    alloc: Global,
    held: &mut Holding,
    store: &Store,
    journal: &mut Journal,
    reps: &[Name],
) -> Result<Found, Fail>
    requires taken { IsTaken held.old store.now }
    requires step { IsInStep held.old (live journal.old.lines) }
    requires reps { AreRepresentatives held.old reps.now }
    ensures leads { Leads store.now held.old journal.old held.new journal.new }
    ensures taken { OnOk result (IsTaken held.new store.now) }
    ensures step { OnOk result (IsInStep held.new (live journal.new.lines)) }
    ensures steps { result ≡ Err OutOfSteps → counted_in journal.new.lines ≡ journal.new.limit }
    ensures number { (wide : WideAt) → result ≡ Err (Number wide) → MayBeWide store.now held.old journal.old.lines journal.new.lines wide }
    ensures advanced { result ≡ Ok Advanced → counted_in journal.old.lines < counted_in journal.new.lines }
    ensures conflict { (k : ℕ) → result ≡ Ok (Conflict k) → IsOwnConflict held.new k }
    ensures budget { KeepsWithin FoundView store.now held.old journal.old.lines result held.new journal.new.lines }
    ensures stays { result ≡ Ok Nothing → held.new ≡ held.old }
    ensures lines { result ≡ Ok Nothing → journal.new ≡ journal.old }
    ensures met { result ≡ Ok Nothing → AreWellSorted held.old → AreMet (seen held.old store.now reps.now) (literals (assumed_in held.old)) }
{
    literals_of_which_none_is_unmet_are_met();
    values_of_integers_are_whole();
    let unmet = first_found(alloc, held, store, reps)?;
    take_up(alloc, held, store, journal, unmet)
}
