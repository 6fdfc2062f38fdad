//! Equations of two names.
ghost use Rattle.std.specs.Prelude.{◌≡◌, ◌<◌, ℕ, length, false, slice_get, Ok, Err, OnOk, Some};
ghost use Rattle.ae_conflicts.specs.Saying.{RestsOnAssumed};
ghost use Rattle.ae_core.specs.Sorts as spec;
ghost use Rattle.ae_core.specs.Sorts.{sort_of};
ghost use Rattle.ae_core.specs.declared.terms.Sort.{Sort};
ghost use Rattle.ae_pmap.specs.Forest.{present};
ghost use Rattle.ae_solving.specs.Inner.Apart.{AreToJoin};
ghost use Rattle.ae_solving.specs.Inner.Taking.{HasTakenUp};
ghost use Rattle.ae_state.specs.Names.{all_terms};
ghost use Rattle.ae_state_steps.specs.ValueSteps.{StatesEqual};
ghost use Rattle.ae_store.specs.Terms.{named};
ghost use Rattle.ae_theory.specs.Names.{terms_in};
ghost use Rattle.ae_turns.specs.declared.found.Found.{Found as FoundView};
ghost use Rattle.ae_turns.specs.Budget.{KeepsWithin};
ghost use Rattle.ae_turns.specs.Ending.{MayBeWide};
ghost use Rattle.ae_value_table.specs.Alike.{alike};
ghost use Rattle.ae_value_table.specs.declared.patterns.Entry.{Entry as EntryView};
ghost use Rattle.ae_journal.specs.Journals.{live, counted_in};
ghost use Rattle.ae_journal.specs.declared.answers.WideAt.{WideAt};
ghost use Rattle.ae_state.specs.Complete.{IsOwnConflict};
ghost use Rattle.ae_state.specs.Stepping.{IsInStep};
ghost use Rattle.ae_theory.specs.declared.theory.Fail.TheVariants.{Steps as OutOfSteps, Number};
ghost use Rattle.ae_turns.specs.declared.found.Found.TheVariants.{Nothing, Advanced, Conflict};
ghost use Rattle.ae_turns.specs.Leading.{Leads};
ghost use Rattle.ae_turns.specs.Representing.{IsTaken};

use crate::leaves::leaf_equation;
use crate::records::{Equated, plain_names};
use ae_core::sorts::is_numeric;
use ae_journal::journal::Journal;
use ae_num::forms::Name;
use ae_number_solving::number_equation;
use ae_state::Holding;
use ae_store::store::Store;
use ae_theory::theory::Fail;
use ae_turns::Found;
use ae_value_table::Values;
use std::alloc::Global;

/// Whether a name is one of numbers.
fn is_number(values: &Values, name: Name) -> bool
    requires { name < length values.now.entries }
    ensures { (entry : EntryView) → slice_get values.now.entries name ≡ Some entry → result ≡ spec.is_numeric entry.sort }
{
    is_numeric(&values.entry(name).sort)
}

/// Takes up the equation of two names of one sort, no records, that have different values.
fn take_up(
    alloc: Global,
    held: &mut Holding,
    store: &Store,
    journal: &mut Journal,
    plain: Equated,
) -> Result<Found, Fail>
    requires taken { IsTaken held.old store.now }
    requires step { IsInStep held.old (live journal.old.lines) }
    requires join { AreToJoin store.now.signature (terms_in store.now) held.old.values plain.left plain.right }
    requires states { StatesEqual held.old.justs plain.step plain.left plain.right }
    requires rests { RestsOnAssumed (all_terms held.old) held.old.justs (present held.old.assumed) plain.step }
    ensures { HasTakenUp store.now held.old journal.old held.new journal.new result }
{
    if is_number(&held.values, plain.left) {
        number_equation(
            alloc,
            held,
            store,
            journal,
            plain.left,
            plain.right,
            plain.step,
        )
    } else {
        leaf_equation(
            alloc,
            held,
            store,
            journal,
            plain.left,
            plain.right,
            plain.step,
        )
    }
}

/// Takes up the equation of two names of one sort that have different values, which a step states: a `solve` line is noted and the larger name that is its
/// own value gets the other's, or the two numbers differ by a constant, which is a conflict. Of two records the first fields that differ are taken.
///
/// `Steps` comes only where the journal was full, `Number` only with a width that it licenses. A refusal leaves what is held right.
pub fn name_equation(
    alloc: Global,
    held: &mut Holding,
    store: &Store,
    journal: &mut Journal,
    left: Name,
    right: Name,
    step: usize,
) -> Result<Found, Fail>
    requires taken { IsTaken held.old store.now }
    requires step { IsInStep held.old (live journal.old.lines) }
    requires within { (left < length store.now.nodes) × (right < length store.now.nodes) }
    requires sorted { (sort : Sort) × (sort_of store.now.signature (named (terms_in store.now) left) ≡ Some sort) × (sort_of store.now.signature (named (terms_in store.now) right) ≡ Some sort) }
    requires states { StatesEqual held.old.justs step left right }
    requires rests { RestsOnAssumed (all_terms held.old) held.old.justs (present held.old.assumed) step }
    requires apart { alike held.old.values left right ≡ false }
    ensures leads { Leads store.now held.old journal.old held.new journal.new }
    ensures taken { OnOk result (IsTaken held.new store.now) }
    ensures step { OnOk result (IsInStep held.new (live journal.new.lines)) }
    ensures steps { result ≡ Err OutOfSteps → counted_in journal.new.lines ≡ journal.new.limit }
    ensures number { (wide : WideAt) → result ≡ Err (Number wide) → MayBeWide store.now held.old journal.old.lines journal.new.lines wide }
    ensures advanced { result ≡ Ok Advanced → counted_in journal.old.lines < counted_in journal.new.lines }
    ensures conflict { (k : ℕ) → result ≡ Ok (Conflict k) → IsOwnConflict held.new k }
    ensures never { result ≡ Ok Nothing → ⊥ }
    ensures budget { KeepsWithin FoundView store.now held.old journal.old.lines result held.new journal.new.lines }
    ensures others { held.new ≡ record held.old { values = held.new.values; justs = held.new.justs; conflicts = held.new.conflicts } }
{
    let plain = plain_names(
        alloc,
        &held.values,
        store,
        &mut held.justs,
        left,
        right,
        step,
    )?;
    take_up(alloc, held, store, journal, plain)
}
