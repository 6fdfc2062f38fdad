//! Steps that put names in place of the names of a multiset, one for one.
ghost use Rattle.std.specs.Prelude.{◌≡◌, ◌<◌, ◌++◌, ◌∷◌, [], length, IfOk};
ghost use Rattle.ae_store.specs.Growing.{IsFront};
ghost use Rattle.ae_store.specs.Shapes.{shapes};
ghost use Rattle.ae_store.specs.Terms.{terms};
ghost use Rattle.ae_just.specs.Steps.{Fits};
ghost use Rattle.ae_state_steps.specs.ManySteps.{StatesMany, StatesNames};
ghost use Rattle.ae_multiset_steps.specs.Equating.{RestsOnThese, AreNamesOf, AreEquated};

use crate::adding::{add_many, one};
use crate::longer::{itself, lengthened};
use ae_core::problems::AcSymbol;
use ae_just::justs::Justs;
use ae_just::steps::Rule;
use ae_num::forms::Name;
use ae_store::store::Store;
use std::alloc::{AllocError, Global};

/// Adds the steps that two names which a step equates are equal as multisets of one name.
fn single(
    alloc: Global,
    justs: &mut Justs,
    store: &Store,
    symbol: &AcSymbol,
    left: Name,
    right: Name,
    step: usize,
) -> Result<usize, AllocError>
    requires fits { Fits store.now.signature (terms (shapes store.now.nodes)) justs.old }
    requires names { AreNamesOf store.now.signature (terms (shapes store.now.nodes)) symbol.now (right ∷ []) }
    requires states { StatesNames justs.old step left right }
    ensures states { IfOk result (λ id. StatesMany justs.new id symbol.now (left ∷ []) (right ∷ [])) }
    ensures rests { IfOk result (λ id. RestsOnThese justs.old justs.new id (step ∷ [])) }
    ensures kept { IsFront justs.old justs.new }
    ensures fits { Fits store.now.signature (terms (shapes store.now.nodes)) justs.new }
{
    let same = itself(justs, store, right)?;
    add_many(
        alloc,
        justs,
        store,
        symbol,
        &[left],
        &[right],
        Rule::Trans(step, same),
    )
}

/// Adds the steps that a multiset is equal to another with whose names steps equate its own, place by place.
pub fn renamed(
    alloc: Global,
    justs: &mut Justs,
    store: &Store,
    symbol: &AcSymbol,
    from: &[Name],
    to: &[Name],
    steps: &[usize],
) -> Result<usize, AllocError>
    requires fits { Fits store.now.signature (terms (shapes store.now.nodes)) justs.old }
    requires names { AreNamesOf store.now.signature (terms (shapes store.now.nodes)) symbol.now (from.now ++ to.now) }
    requires equal { AreEquated justs.old from.now to.now steps.now }
    requires some { 0 < length from.now }
    ensures states { IfOk result (λ id. StatesMany justs.new id symbol.now from.now to.now) }
    ensures rests { IfOk result (λ id. RestsOnThese justs.old justs.new id steps.now) }
    ensures kept { IsFront justs.old justs.new }
    ensures fits { Fits store.now.signature (terms (shapes store.now.nodes)) justs.new }
{
    let mut longer = one(alloc, from[0])?;
    let mut others = one(alloc, to[0])?;
    let mut at = single(alloc, justs, store, symbol, from[0], to[0], steps[0])?;
    for i in 1..from.len() {
        longer.push(from[i])?;
        others.push(to[i])?;
        at = lengthened(
            alloc,
            justs,
            store,
            symbol,
            longer.as_slice(),
            others.as_slice(),
            at,
            steps[i],
        )?;
    }
    Ok(at)
}
