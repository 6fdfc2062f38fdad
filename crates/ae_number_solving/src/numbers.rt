//! Equations of two numbers.
ghost use Rattle.std.specs.Prelude.{◌≡◌, ◌<◌, ◌++◌, ◌∷◌, [], ◌↔◌, ℕ, Bool, length, false, IsTrue, Ok, Err, OnOk, OnErr, IfOk};
ghost use Rattle.ae_core.specs.declared.terms.Sort.{Real};
ghost use Rattle.ae_conflicts.specs.Saying.{RestsOnAssumed};
ghost use Rattle.ae_pmap.specs.Forest.{present};
ghost use Rattle.ae_state.specs.Names.{all_terms};
ghost use Rattle.ae_state_steps.specs.ValueSteps.{StatesEqual, IsNumberName};
ghost use Rattle.ae_theory.specs.Names.{terms_in};
ghost use Rattle.ae_turns.specs.declared.found.Found.{Found as FoundView};
ghost use Rattle.ae_turns.specs.Budget.{KeepsWithin};
ghost use Rattle.ae_turns.specs.Ending.{MayBeWide};
ghost use Rattle.ae_value_table.specs.Alike.{alike};
ghost use Rattle.ae_journal.specs.Journals.{live, counted_in};
ghost use Rattle.ae_journal.specs.declared.answers.WideAt.{WideAt};
ghost use Rattle.ae_state.specs.Complete.{IsOwnConflict};
ghost use Rattle.ae_state.specs.Stepping.{IsInStep};
ghost use Rattle.ae_theory.specs.declared.theory.Fail.TheVariants.{Steps as OutOfSteps, Number};
ghost use Rattle.ae_turns.specs.declared.found.Found.TheVariants.{Nothing, Advanced, Conflict};
ghost use Rattle.ae_turns.specs.Leading.{Leads};
ghost use Rattle.ae_turns.specs.Representing.{IsTaken};
ghost use Rattle.ae_number_solving.specs.Inner.Equated.{IsSomeDifference};

use crate::conflicts::keep_constant;
use crate::differences::{Difference, zero_difference};
use crate::solutions::scaling_refused;
use crate::solving::{failed, solve};
use ae_core::equality::same_sort;
use ae_core::terms::Sort;
use ae_journal::journal::Journal;
use ae_linear::{Solved, solution};
use ae_name_licences::laws::{stores_are_in_step, widths_of_solving_are_licensed};
use ae_num::forms::Name;
use ae_state::Holding;
use ae_store::store::Store;
use ae_theory::theory::Fail;
use ae_turns::Found;
use std::alloc::Global;

/// Whether a sort is `real`.
fn is_real(sort: &Sort) -> bool
    ensures { IsTrue result ↔ (sort.now ≡ Real) }
{
    same_sort(sort, &Sort::Real)
}

/// Takes up the difference of two numbers, of which a step states that it is 0.
fn settle(
    alloc: Global,
    held: &mut Holding,
    store: &Store,
    journal: &mut Journal,
    difference: &Difference,
    real: bool,
) -> Result<Found, Fail>
    requires difference { IsSomeDifference store.now held.old real difference.now.form difference.now.zero }
    requires step { IsInStep held.old (live journal.old.lines) }
    ensures leads { Leads store.now held.old journal.old held.new journal.new }
    ensures taken { OnOk result (IsTaken held.new store.now) }
    ensures step { OnOk result (IsInStep held.new (live journal.new.lines)) }
    ensures steps { result ≡ Err OutOfSteps → counted_in journal.new.lines ≡ journal.new.limit }
    ensures number { (wide : WideAt) → result ≡ Err (Number wide) → MayBeWide store.now held.old journal.old.lines journal.new.lines wide }
    ensures advanced { result ≡ Ok Advanced → counted_in journal.old.lines < counted_in journal.new.lines }
    ensures conflict { (k : ℕ) → result ≡ Ok (Conflict k) → IsOwnConflict held.new k }
    ensures never { result ≡ Ok Nothing → ⊥ }
    ensures budget { KeepsWithin FoundView store.now held.old journal.old.lines result held.new journal.new.lines }
    ensures others { held.new ≡ record held.old { values = held.new.values; justs = held.new.justs; conflicts = held.new.conflicts } }
{
    stores_are_in_step();
    widths_of_solving_are_licensed();
    match solution(alloc, &difference.form) {
        Ok(solved) => match solved {
            Solved::Trivial => unreachable!(),
            Solved::Bottom => keep_constant(held, difference.zero),
            Solved::Rule { name, value } => {
                solve(alloc, held, store, journal, difference, name, value, real)
            }
        },
        Err(fail) => Err(failed(scaling_refused(alloc, &difference.form, fail))),
    }
}

/// Takes up the equation of two names of numbers that have different values, which a step states: a `solve` line is noted and the largest name of their
/// difference gets the value at which that is zero; where the difference is a constant, it is a conflict.
///
/// `Steps` comes only where the journal was full, `Number` only with a width that it licenses. A refusal leaves what is held right.
pub fn number_equation(
    alloc: Global,
    held: &mut Holding,
    store: &Store,
    journal: &mut Journal,
    left: Name,
    right: Name,
    step: usize,
) -> Result<Found, Fail>
    requires taken { IsTaken held.old store.now }
    requires step { IsInStep held.old (live journal.old.lines) }
    requires numbers { (real : Bool) × IsNumberName store.now.signature (terms_in store.now) real left × IsNumberName store.now.signature (terms_in store.now) real right }
    requires within { (left < length store.now.nodes) × (right < length store.now.nodes) }
    requires states { StatesEqual held.old.justs step left right }
    requires rests { RestsOnAssumed (all_terms held.old) held.old.justs (present held.old.assumed) step }
    requires apart { alike held.old.values left right ≡ false }
    ensures leads { Leads store.now held.old journal.old held.new journal.new }
    ensures taken { OnOk result (IsTaken held.new store.now) }
    ensures step { OnOk result (IsInStep held.new (live journal.new.lines)) }
    ensures steps { result ≡ Err OutOfSteps → counted_in journal.new.lines ≡ journal.new.limit }
    ensures number { (wide : WideAt) → result ≡ Err (Number wide) → MayBeWide store.now held.old journal.old.lines journal.new.lines wide }
    ensures advanced { result ≡ Ok Advanced → counted_in journal.old.lines < counted_in journal.new.lines }
    ensures conflict { (k : ℕ) → result ≡ Ok (Conflict k) → IsOwnConflict held.new k }
    ensures never { result ≡ Ok Nothing → ⊥ }
    ensures budget { KeepsWithin FoundView store.now held.old journal.old.lines result held.new journal.new.lines }
    ensures others { held.new ≡ record held.old { values = held.new.values; justs = held.new.justs; conflicts = held.new.conflicts } }
{
    stores_are_in_step();
    widths_of_solving_are_licensed();
    let real = is_real(&held.values.entry(left).sort);
    match zero_difference(
        alloc,
        &held.values,
        store,
        &mut held.justs,
        left,
        right,
        step,
        real,
    ) {
        Ok(difference) => settle(alloc, held, store, journal, &difference, real),
        Err(refused) => Err(failed(refused)),
    }
}
