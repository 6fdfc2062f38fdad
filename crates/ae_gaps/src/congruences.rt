//! Names that apply one head to arguments that are the same.
ghost use Rattle.std.specs.Prelude.{◌≡◌, ◌<◌, [], ℕ, length, Ok, Err, IfOk, OnOk};
ghost use Rattle.ae_equal_steps.specs.Inner.Pairs.{IsHeld};
ghost use Rattle.ae_gaps.specs.Inner.Congruent.{AreSame, AreCongruentIn};
ghost use Rattle.ae_journal.specs.Journals.{live, counted_in};
ghost use Rattle.ae_journal.specs.declared.answers.WideAt.{WideAt};
ghost use Rattle.ae_just.specs.Steps.{Fits};
ghost use Rattle.ae_multiset_steps.specs.Equating.{AreEquated};
ghost use Rattle.ae_state.specs.Complete.{IsOwnConflict};
ghost use Rattle.ae_state.specs.Stepping.{IsInStep};
ghost use Rattle.ae_state_steps.specs.ValueSteps.{StatesEqual};
ghost use Rattle.ae_store.specs.Growing.{IsFront};
ghost use Rattle.ae_store.specs.Parts.{IsIn};
ghost use Rattle.ae_store.specs.Shapes.{shapes};
ghost use Rattle.ae_store.specs.Terms.{terms};
ghost use Rattle.ae_sweeps.specs.Gaps.{IsUnequal};
ghost use Rattle.ae_sweeps.specs.Given.{rep_in};
ghost use Rattle.ae_theory.specs.declared.theory.Fail.TheVariants.{Steps as OutOfSteps, Number};
ghost use Rattle.ae_turns.specs.declared.found.Found.{Found as FoundView};
ghost use Rattle.ae_turns.specs.Budget.{KeepsWithin};
ghost use Rattle.ae_turns.specs.Ending.{MayBeWide};
ghost use Rattle.ae_turns.specs.Leading.{Leads};
ghost use Rattle.ae_turns.specs.Representing.{IsTaken, AreRepresentatives};
ghost use Rattle.ae_turns.specs.declared.found.Found.TheVariants.{Nothing, Advanced, Conflict};
ghost use Rattle.ae_value_fitting.specs.Sources.{RestsOnValues};

use ae_congruent_steps::state_congruent;
use ae_core::lists::List;
use ae_entering::laws::entries_of_all_names_fit;
use ae_equal_steps::equal_step;
use ae_journal::journal::Journal;
use ae_just::justs::Justs;
use ae_num::forms::Name;
use ae_orienting::name_equation;
use ae_state::Holding;
use ae_store::store::Store;
use ae_theory::theory::Fail;
use ae_turns::Found;
use ae_value_table::Values;
use std::alloc::{AllocError, Global};

/// Adds the steps that the names of two lists are equal, place by place. They rest on the steps that say values.
fn equal_each(
    alloc: Global,
    values: &Values,
    store: &Store,
    justs: &mut Justs,
    left: &[Name],
    right: &[Name],
) -> Result<List<usize>, AllocError>
    requires held { IsHeld store.now justs.old values.now }
    requires same { AreSame store.now.signature (terms (shapes store.now.nodes)) values.now left.now right.now }
    ensures equal { IfOk result (λ ids. AreEquated justs.new left.now right.now ids) }
    ensures rests { IfOk result (λ ids. (id : ℕ) → IsIn id ids → RestsOnValues justs.old justs.new values.now [] id) }
    ensures front { IsFront justs.old justs.new }
    ensures fits { Fits store.now.signature (terms (shapes store.now.nodes)) justs.new }
{
    let mut steps = List::new(alloc);
    for i in 0..left.len() {
        let step = equal_step(alloc, values, store, justs, left[i], right[i])?;
        steps.push(step)?;
    }
    Ok(steps)
}

/// Adds the steps that two names are equal which apply one head to names that are the same. They rest on the steps that say values.
fn congruent_step(
    alloc: Global,
    values: &Values,
    store: &Store,
    justs: &mut Justs,
    left: Name,
    right: Name,
) -> Result<usize, AllocError>
    requires held { IsHeld store.now justs.old values.now }
    requires congruent { AreCongruentIn store.now.signature store.now.nodes values.now left right }
    ensures states { IfOk result (λ id. StatesEqual justs.new id left right) }
    ensures rests { IfOk result (λ id. RestsOnValues justs.old justs.new values.now [] id) }
    ensures front { IsFront justs.old justs.new }
    ensures fits { Fits store.now.signature (terms (shapes store.now.nodes)) justs.new }
{
    let first = store.node(left).args.as_slice();
    let second = store.node(right).args.as_slice();
    let steps = equal_each(alloc, values, store, justs, first, second)?;
    state_congruent(store, justs, left, right, steps)
}

/// Takes up the equation of two names that are congruent and have different representatives.
///
/// `Steps` comes only where the journal was full, `Number` only with a width that it licenses. A refusal leaves what is held right.
pub(crate) fn take_up_congruent(
    alloc: Global,
    held: &mut Holding,
    store: &Store,
    journal: &mut Journal,
    reps: &[Name],
    left: Name,
    right: Name,
) -> Result<Found, Fail>
    requires taken { IsTaken held.old store.now }
    requires step { IsInStep held.old (live journal.old.lines) }
    requires reps { AreRepresentatives held.old reps.now }
    requires unequal { IsUnequal store.now.signature store.now.nodes (rep_in reps.now) left right }
    ensures leads { Leads store.now held.old journal.old held.new journal.new }
    ensures taken { OnOk result (IsTaken held.new store.now) }
    ensures step { OnOk result (IsInStep held.new (live journal.new.lines)) }
    ensures steps { result ≡ Err OutOfSteps → counted_in journal.new.lines ≡ journal.new.limit }
    ensures number { (wide : WideAt) → result ≡ Err (Number wide) → MayBeWide store.now held.old journal.old.lines journal.new.lines wide }
    ensures advanced { result ≡ Ok Advanced → counted_in journal.old.lines < counted_in journal.new.lines }
    ensures conflict { (k : ℕ) → result ≡ Ok (Conflict k) → IsOwnConflict held.new k }
    ensures never { result ≡ Ok Nothing → ⊥ }
    ensures budget { KeepsWithin FoundView store.now held.old journal.old.lines result held.new journal.new.lines }
{
    entries_of_all_names_fit();
    let _names = store.len();
    let step = congruent_step(alloc, &held.values, store, &mut held.justs, left, right)?;
    name_equation(alloc, held, store, journal, left, right, step)
}
