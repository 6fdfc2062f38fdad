//! Equations of two names.
ghost use Rattle.std.specs.Prelude.{◌≡◌, ◌<◌, ◌∷◌, [], ℕ, length, Ok, Err, IfOk, OnOk};
ghost use Rattle.ae_journal.specs.Journals.{live, counted_in};
ghost use Rattle.ae_journal.specs.declared.answers.WideAt.{WideAt};
ghost use Rattle.ae_just.specs.Steps.{Fits};
ghost use Rattle.ae_multiset.specs.Multisets.{IsLess};
ghost use Rattle.ae_multiset_steps.specs.Equating.{RestsOnThese};
ghost use Rattle.ae_state.specs.Complete.{IsOwnConflict};
ghost use Rattle.ae_state.specs.Stepping.{IsInStep};
ghost use Rattle.ae_state_steps.specs.ManySteps.{StatesMany};
ghost use Rattle.ae_state_steps.specs.ValueSteps.{StatesEqual};
ghost use Rattle.ae_store.specs.Growing.{IsFront};
ghost use Rattle.ae_store.specs.Shapes.{shapes};
ghost use Rattle.ae_store.specs.Terms.{terms};
ghost use Rattle.ae_theory.specs.declared.theory.Fail.TheVariants.{Steps as OutOfSteps, Number};
ghost use Rattle.ae_turns.specs.declared.found.Found.TheVariants.{Nothing, Advanced, Conflict};
ghost use Rattle.ae_turns.specs.Ending.{MayBeWide};
ghost use Rattle.ae_turns.specs.Leading.{Leads};
ghost use Rattle.ae_turns.specs.Representing.{IsTaken, AreRepresentatives};
ghost use Rattle.ae_orienting.specs.Inner.Reduced.{IsFirstReduced};

use ae_core::problems::AcSymbol;
use ae_equations::Waiting;
use ae_journal::journal::Journal;
use ae_just::justs::Justs;
use ae_just::steps::{Rule, Side, Step};
use ae_multiset_steps::turned;
use ae_num::forms::Name;
use ae_solving::name_equation;
use ae_state::Holding;
use ae_store::store::Store;
use ae_theory::theory::Fail;
use ae_turns::Found;
use std::alloc::{AllocError, Global};

/// Adds the steps that two names are equal which a step equates as multisets of one name each.
fn state_names(
    alloc: Global,
    justs: &mut Justs,
    store: &Store,
    symbol: &AcSymbol,
    left: Name,
    right: Name,
    step: usize,
) -> Result<usize, AllocError>
    requires fits { Fits store.now.signature (terms (shapes store.now.nodes)) justs.old }
    requires states { StatesMany justs.old step symbol.now (left ∷ []) (right ∷ []) }
    ensures states { IfOk result (λ id. StatesEqual justs.new id left right) }
    ensures rests { IfOk result (λ id. RestsOnThese justs.old justs.new id (step ∷ [])) }
    ensures kept { IsFront justs.old justs.new }
    ensures fits { Fits store.now.signature (terms (shapes store.now.nodes)) justs.new }
{
    let back = turned(alloc, justs, store, symbol, &[right], &[left], step)?;
    let names = Step {
        left: Side::Name(left),
        right: Side::Name(right),
        rule: Rule::Sym(back),
    };
    justs.add(store, names)
}

/// Takes up an equation of two single names.
pub(crate) fn solve(
    alloc: Global,
    held: &mut Holding,
    store: &Store,
    journal: &mut Journal,
    reps: &[Name],
    equation: &Waiting,
) -> Result<Found, Fail>
    requires taken { IsTaken held.old store.now }
    requires step { IsInStep held.old (live journal.old.lines) }
    requires reps { AreRepresentatives held.old reps.now }
    requires first { IsFirstReduced store.now held.old reps.now equation.now }
    requires falls { IsLess equation.now.right equation.now.left }
    requires single { length equation.now.left < 2 }
    ensures leads { Leads store.now held.old journal.old held.new journal.new }
    ensures taken { OnOk result (IsTaken held.new store.now) }
    ensures step { OnOk result (IsInStep held.new (live journal.new.lines)) }
    ensures steps { result ≡ Err OutOfSteps → counted_in journal.new.lines ≡ journal.new.limit }
    ensures number { (wide : WideAt) → result ≡ Err (Number wide) → MayBeWide store.now held.old journal.old.lines journal.new.lines wide }
    ensures advanced { result ≡ Ok Advanced → counted_in journal.old.lines < counted_in journal.new.lines }
    ensures conflict { (k : ℕ) → result ≡ Ok (Conflict k) → IsOwnConflict held.new k }
    ensures never { result ≡ Ok Nothing → ⊥ }
{
    let left = equation.left.as_slice()[0];
    let right = equation.right.as_slice()[0];
    let symbol = &equation.symbol;
    let step = state_names(
        alloc,
        &mut held.justs,
        store,
        symbol,
        left,
        right,
        equation.step,
    )?;
    name_equation(alloc, held, store, journal, left, right, step)
}
