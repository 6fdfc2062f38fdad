//! A name gets another number: the line that says so, and the values and steps afterwards.
ghost use Rattle.std.specs.Prelude.{◌≡◌, ◌≢◌, ◌<◌, ◌++◌, ◌∷◌, [], ℕ, List, Bool, Err, OnOk, IfOk, IfErr};
ghost use Rattle.ae_num.specs.Forms.{meaning};
ghost use Rattle.ae_num.specs.declared.forms.Value.{Number as NumberValue};
ghost use Rattle.ae_journal.specs.Journals.{live, counted_in};
ghost use Rattle.ae_journal.specs.Noted.{Noted};
ghost use Rattle.ae_journal.specs.declared.answers.WideAt.{WideAt};
ghost use Rattle.ae_journal.specs.declared.lines.Line.{Line};
ghost use Rattle.ae_journal.specs.declared.lines.Line.TheVariants as line;
ghost use Rattle.ae_journal.specs.declared.lines.Oriented.TheVariants as oriented;
ghost use Rattle.ae_linear.specs.Solving.{SolvesFor};
ghost use Rattle.ae_theory.specs.declared.theory.Fail.TheVariants.{Steps as OutOfSteps, Number};
ghost use Rattle.ae_value_fitting.specs.declared.refusals.Refused.TheVariants as refusal;
ghost use Rattle.ae_value_fitting.specs.Refusals.{IfNumber};
ghost use Rattle.ae_values.specs.Widths.{IsPutWide};
ghost use Rattle.ae_state.specs.Stepping.{IsInStep};
ghost use Rattle.ae_turns.specs.declared.found.Found.TheVariants.{Advanced};
ghost use Rattle.ae_turns.specs.declared.found.Found.{Found as FoundView};
ghost use Rattle.ae_turns.specs.Budget.{IsUnsolved, KeepsWithin};
ghost use Rattle.ae_turns.specs.Ending.{MayBeWide};
ghost use Rattle.ae_turns.specs.Leading.{Leads};
ghost use Rattle.ae_turns.specs.Representing.{IsTaken};
ghost use Rattle.ae_number_solving.specs.Inner.Equated.{IsSomeDifference};
ghost use Rattle.ae_number_solving.specs.Inner.Solving.{MayBePut};

use crate::differences::Difference;
use ae_journal::journal::Journal;
use ae_name_licences::laws::{
    solve_lines_are_legal, stores_are_in_step, widths_of_puts_are_licensed,
};
use ae_num::copies::copied;
use ae_num::forms::{Lin, Name, Value};
use ae_state::Holding;
use ae_store::store::Store;
use ae_theory::theory::Fail;
use ae_turns::Found;
use ae_value_fitting::Refused;
use ae_value_steps::state_solved;
use ae_value_turns::note_solution;
use ae_values::put_number;
use std::alloc::Global;

/// Why a step of saturation is refused, by why a change of values is.
pub(crate) fn failed(refused: Refused) -> Fail
    ensures number { (wide : WideAt) → result ≡ Number wide → refused ≡ refusal.Number wide }
    ensures steps { result ≡ OutOfSteps → ⊥ }
{
    match refused {
        Refused::Number(wide) => Fail::Number(wide),
        Refused::Memory(refused) => Fail::Memory(refused),
    }
}

/// Puts a number for a name in all values, with the steps that state these. A refusal leaves the values as they were.
fn put(
    alloc: Global,
    held: &mut Holding,
    store: &Store,
    name: Name,
    number: Lin,
    just: usize,
    real: bool,
) -> Result<(), Refused>
    requires may { MayBePut store.now held.old real name number just }
    ensures leads { (j : Noted) → Leads store.now held.old j held.new j }
    ensures taken { IsTaken held.new store.now }
    ensures step { OnOk result ((js : List Line) → IsInStep held.old js → IsInStep held.new (js ++ line.Orient (oriented.Named name (NumberValue number)) ∷ [])) }
    ensures solved { OnOk result ((n : ℕ) → IsUnsolved store.now held.new.values n → IsUnsolved store.now held.old.values n × (n ≢ name)) }
    ensures wide { IfErr result (λ refused. IfNumber refused (λ width. IsPutWide held.old.values name number width)) }
    ensures others { held.new ≡ record held.old { values = held.new.values; justs = held.new.justs } }
{
    put_number(
        alloc,
        &mut held.values,
        store,
        &mut held.justs,
        name,
        number,
        just,
        real,
    )
}

/// Gives the name for which a difference is solved its number: the step that states it is added, the line is noted, and the number is put.
pub(crate) fn solve(
    alloc: Global,
    held: &mut Holding,
    store: &Store,
    journal: &mut Journal,
    difference: &Difference,
    name: Name,
    number: Lin,
    real: bool,
) -> Result<Found, Fail>
    requires difference { IsSomeDifference store.now held.old real difference.now.form difference.now.zero }
    requires solves { SolvesFor (meaning difference.now.form) name number }
    requires step { IsInStep held.old (live journal.old.lines) }
    ensures leads { Leads store.now held.old journal.old held.new journal.new }
    ensures taken { OnOk result (IsTaken held.new store.now) }
    ensures step { OnOk result (IsInStep held.new (live journal.new.lines)) }
    ensures steps { result ≡ Err OutOfSteps → counted_in journal.new.lines ≡ journal.new.limit }
    ensures number { (wide : WideAt) → result ≡ Err (Number wide) → MayBeWide store.now held.old journal.old.lines journal.new.lines wide }
    ensures counted { OnOk result (counted_in journal.old.lines < counted_in journal.new.lines) }
    ensures found { IfOk result (λ found. found ≡ Advanced) }
    ensures budget { KeepsWithin FoundView store.now held.old journal.old.lines result held.new journal.new.lines }
    ensures others { held.new ≡ record held.old { values = held.new.values; justs = held.new.justs } }
{
    stores_are_in_step();
    solve_lines_are_legal();
    widths_of_puts_are_licensed();
    let just = state_solved(
        alloc,
        store,
        &mut held.justs,
        name,
        &number,
        &difference.form,
        difference.zero,
        real,
    )?;
    let copy = copied(alloc, &number)?;
    note_solution(journal, name, Value::Number(copy))?;
    match put(alloc, held, store, name, number, just, real) {
        Ok(()) => Ok(Found::Advanced),
        Err(refused) => Err(failed(refused)),
    }
}
