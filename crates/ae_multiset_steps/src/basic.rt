//! Single steps between multisets.
ghost use Rattle.std.specs.Prelude.{◌≡◌, ◌<◌, ◌++◌, ◌∷◌, [], List, ℕ, length, IfOk};
ghost use Rattle.ae_core.specs.declared.terms.Term.{Apply};
ghost use Rattle.ae_multiset.specs.Multisets.{IsSame};
ghost use Rattle.ae_store.specs.Growing.{IsFront};
ghost use Rattle.ae_store.specs.Shapes.{shapes};
ghost use Rattle.ae_store.specs.Terms.{terms, named};
ghost use Rattle.ae_just.specs.Steps.{Fits};
ghost use Rattle.ae_state_steps.specs.ManySteps.{StatesMany};
ghost use Rattle.ae_multiset_steps.specs.Equating.{RestsOnThese, AreNamesOf};

use crate::adding::add_many;
use ae_core::problems::AcSymbol;
use ae_just::justs::Justs;
use ae_just::steps::Rule;
use ae_num::forms::Name;
use ae_state_steps::laws::{names_of_symbols_have_a_step, orders_have_a_step};
use ae_store::store::Store;
use std::alloc::{AllocError, Global};

/// Adds the step that two lists of the same names, each as often, are equal. It rests on nothing.
pub fn reordered(
    alloc: Global,
    justs: &mut Justs,
    store: &Store,
    symbol: &AcSymbol,
    from: &[Name],
    to: &[Name],
) -> Result<usize, AllocError>
    requires fits { Fits store.now.signature (terms (shapes store.now.nodes)) justs.old }
    requires names { AreNamesOf store.now.signature (terms (shapes store.now.nodes)) symbol.now (from.now ++ to.now) }
    requires same { IsSame from.now to.now }
    requires some { 0 < length from.now }
    ensures states { IfOk result (λ id. StatesMany justs.new id symbol.now from.now to.now) }
    ensures rests { IfOk result (λ id. RestsOnThese justs.old justs.new id []) }
    ensures kept { IsFront justs.old justs.new }
    ensures fits { Fits store.now.signature (terms (shapes store.now.nodes)) justs.new }
{
    orders_have_a_step();
    if from.len() < 2 {
        return add_many(alloc, justs, store, symbol, from, to, Rule::Refl);
    }
    add_many(alloc, justs, store, symbol, from, to, Rule::Ac)
}

/// Adds the step that the two arguments of a name, as a multiset, are the name. It rests on nothing.
pub fn arguments_joined(
    alloc: Global,
    justs: &mut Justs,
    store: &Store,
    symbol: &AcSymbol,
    first: Name,
    second: Name,
    name: Name,
) -> Result<usize, AllocError>
    requires fits { Fits store.now.signature (terms (shapes store.now.nodes)) justs.old }
    requires names { AreNamesOf store.now.signature (terms (shapes store.now.nodes)) symbol.now (name ∷ []) }
    requires joins { named (terms (shapes store.now.nodes)) name
        ≡ Apply symbol.now.head symbol.now.sorts (named (terms (shapes store.now.nodes)) first ∷ named (terms (shapes store.now.nodes)) second ∷ []) }
    ensures states { IfOk result (λ id. StatesMany justs.new id symbol.now (first ∷ second ∷ []) (name ∷ [])) }
    ensures rests { IfOk result (λ id. RestsOnThese justs.old justs.new id []) }
    ensures kept { IsFront justs.old justs.new }
    ensures fits { Fits store.now.signature (terms (shapes store.now.nodes)) justs.new }
{
    names_of_symbols_have_a_step();
    add_many(
        alloc,
        justs,
        store,
        symbol,
        &[first, second],
        &[name],
        Rule::Refl,
    )
}

/// Adds the step that two multisets are equal which two steps equate with a third.
pub fn chained(
    alloc: Global,
    justs: &mut Justs,
    store: &Store,
    symbol: &AcSymbol,
    from: &[Name],
    to: &[Name],
    first: usize,
    second: usize,
) -> Result<usize, AllocError>
    requires fits { Fits store.now.signature (terms (shapes store.now.nodes)) justs.old }
    requires states { (between : List ℕ) × StatesMany justs.old first symbol.now from.now between × StatesMany justs.old second symbol.now between to.now }
    ensures states { IfOk result (λ id. StatesMany justs.new id symbol.now from.now to.now) }
    ensures rests { IfOk result (λ id. RestsOnThese justs.old justs.new id (first ∷ second ∷ [])) }
    ensures kept { IsFront justs.old justs.new }
    ensures fits { Fits store.now.signature (terms (shapes store.now.nodes)) justs.new }
{
    add_many(
        alloc,
        justs,
        store,
        symbol,
        from,
        to,
        Rule::Trans(first, second),
    )
}

/// Adds the step that states the equation of another with its sides changed over.
pub fn turned(
    alloc: Global,
    justs: &mut Justs,
    store: &Store,
    symbol: &AcSymbol,
    from: &[Name],
    to: &[Name],
    step: usize,
) -> Result<usize, AllocError>
    requires fits { Fits store.now.signature (terms (shapes store.now.nodes)) justs.old }
    requires states { StatesMany justs.old step symbol.now to.now from.now }
    ensures states { IfOk result (λ id. StatesMany justs.new id symbol.now from.now to.now) }
    ensures rests { IfOk result (λ id. RestsOnThese justs.old justs.new id (step ∷ [])) }
    ensures kept { IsFront justs.old justs.new }
    ensures fits { Fits store.now.signature (terms (shapes store.now.nodes)) justs.new }
{
    add_many(alloc, justs, store, symbol, from, to, Rule::Sym(step))
}
