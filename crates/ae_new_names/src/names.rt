//! Names of a store that have no values yet.
ghost use Rattle.std.specs.Prelude.{◌≡◌, ℕ, List, Err, OnOk};
ghost use Rattle.ae_journal.specs.Journals.{live};
ghost use Rattle.ae_journal.specs.Noted.{Noted};
ghost use Rattle.ae_journal.specs.declared.answers.WideAt.{WideAt};
ghost use Rattle.ae_journal.specs.declared.lines.Line.{Line as LineView};
ghost use Rattle.ae_state.specs.Names.{all_terms};
ghost use Rattle.ae_state.specs.Fitting.{FitsStore};
ghost use Rattle.ae_state.specs.Stepping.{IsInStep};
ghost use Rattle.ae_sweeps.specs.Given.{AreConstants};
ghost use Rattle.ae_theory.specs.Names.{terms_in};
ghost use Rattle.ae_theory.specs.declared.theory.Fail.TheVariants.{Steps as OutOfSteps, Number};
ghost use Rattle.ae_turns.specs.Budget.{MayNote};
ghost use Rattle.ae_turns.specs.Ending.{MayBeWide};
ghost use Rattle.ae_turns.specs.Leading.{Leads};
ghost use Rattle.ae_turns.specs.Representing.{IsTaken};
ghost use Rattle.ae_value_fitting.specs.declared.refusals.Refused.TheVariants.{Number as NumberRefused};

use ae_name_lines::laws::new_names_are_in_step;
use ae_new_widths::laws::widths_of_names_taken_in_are_licensed;
use ae_state::Holding;
use ae_store::store::Store;
use ae_take_in::take_in;
use ae_theory::theory::Fail;
use ae_value_fitting::Refused;
use std::alloc::{AllocError, Global};

/// Why names can't get values, as a search says it.
fn failed(refused: Refused) -> Fail
    ensures steps { result ≡ OutOfSteps → ⊥ }
    ensures number { (wide : WideAt) → result ≡ Number wide → refused ≡ NumberRefused wide }
{
    match refused {
        Refused::Number(wide) => Fail::Number(wide),
        Refused::Memory(memory) => Fail::Memory(memory),
    }
}

/// Takes note of the names of a store that are new.
fn learn_all(alloc: Global, held: &mut Holding, store: &Store) -> Result<(), AllocError>
    requires fits { FitsStore held.old store.now }
    ensures leads { (j : Noted) → Leads store.now held.old j held.new j }
    ensures all { OnOk result (all_terms held.new ≡ terms_in store.now) }
    ensures step { (js : List LineView) → IsInStep held.old js → IsInStep held.new js }
    ensures budget { (n : ℕ) → MayNote held.old store.now n → MayNote held.new store.now n }
{
    held.learn(alloc, store)
}

/// Gives all names values, where all are known.
fn take_known(
    alloc: Global,
    held: &mut Holding,
    store: &Store,
    constants: &[bool],
) -> Result<(), Fail>
    requires fits { FitsStore held.old store.now }
    requires all { all_terms held.old ≡ terms_in store.now }
    requires constants { AreConstants (terms_in store.now) constants.now }
    ensures leads { (j : Noted) → Leads store.now held.old j held.new j }
    ensures taken { OnOk result (IsTaken held.new store.now) }
    ensures step { OnOk result ((js : List LineView) → IsInStep held.old js → IsInStep held.new js) }
    ensures budget { OnOk result ((n : ℕ) → MayNote held.old store.now n → MayNote held.new store.now n) }
    ensures steps { result ≡ Err OutOfSteps → ⊥ }
    ensures number { (wide : WideAt) (js : List LineView) → result ≡ Err (Number wide) → IsInStep held.old (live js) → MayBeWide store.now held.old js js wide }
{
    new_names_are_in_step();
    widths_of_names_taken_in_are_licensed();
    let _names = store.len();
    match take_in(
        alloc,
        &mut held.values,
        store,
        &held.signature,
        constants,
        &mut held.justs,
    ) {
        Ok(()) => Ok(()),
        Err(refused) => Err(failed(refused)),
    }
}

/// Gives all names of a store values: those that have none yet get the values of their terms. No line says so.
///
/// `constants` says of each name whether its term's linear form is a number. `Number` comes only with a width that is licensed. A refusal leaves what is
/// held right.
pub fn take_new(
    alloc: Global,
    held: &mut Holding,
    store: &Store,
    constants: &[bool],
) -> Result<(), Fail>
    requires fits { FitsStore held.old store.now }
    requires constants { AreConstants (terms_in store.now) constants.now }
    ensures leads { (j : Noted) → Leads store.now held.old j held.new j }
    ensures taken { OnOk result (IsTaken held.new store.now) }
    ensures step { OnOk result ((js : List LineView) → IsInStep held.old js → IsInStep held.new js) }
    ensures budget { OnOk result ((n : ℕ) → MayNote held.old store.now n → MayNote held.new store.now n) }
    ensures steps { result ≡ Err OutOfSteps → ⊥ }
    ensures number { (wide : WideAt) (js : List LineView) → result ≡ Err (Number wide) → IsInStep held.old (live js) → MayBeWide store.now held.old js js wide }
{
    learn_all(alloc, held, store)?;
    take_known(alloc, held, store, constants)
}
