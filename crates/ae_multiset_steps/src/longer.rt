//! Steps that put names to both multisets of an equation.
ghost use Rattle.std.specs.Prelude.{◌≡◌, ◌<◌, ◌++◌, ◌∷◌, [], true, length, IfOk};
ghost use Rattle.ae_base.specs.Options.{known};
ghost use Rattle.ae_core.specs.Sorts.{sort_of};
ghost use Rattle.ae_store.specs.Growing.{IsFront};
ghost use Rattle.ae_store.specs.Shapes.{shapes};
ghost use Rattle.ae_store.specs.Terms.{terms, named};
ghost use Rattle.ae_just.specs.Steps.{Fits};
ghost use Rattle.ae_state_steps.specs.ManySteps.{StatesMany, StatesNames};
ghost use Rattle.ae_multiset_steps.specs.Equating.{RestsOnThese, AreNamesOf};
ghost use Rattle.ae_multiset_steps.specs.Inner.Longer.{IsLonger};

use crate::adding::{add_many, pair};
use ae_core::lists::List;
use ae_core::problems::AcSymbol;
use ae_just::justs::Justs;
use ae_just::steps::{Rule, Side, Step};
use ae_num::forms::Name;
use ae_state_steps::laws::longer_multisets_have_a_step;
use ae_store::store::Store;
use std::alloc::{AllocError, Global};

/// Adds the step that a name is itself. It rests on nothing.
pub(crate) fn itself(justs: &mut Justs, store: &Store, name: Name) -> Result<usize, AllocError>
    requires fits { Fits store.now.signature (terms (shapes store.now.nodes)) justs.old }
    requires sorted { known (sort_of store.now.signature (named (terms (shapes store.now.nodes)) name)) ≡ true }
    ensures states { IfOk result (λ id. StatesNames justs.new id name name) }
    ensures rests { IfOk result (λ id. RestsOnThese justs.old justs.new id []) }
    ensures kept { IsFront justs.old justs.new }
    ensures fits { Fits store.now.signature (terms (shapes store.now.nodes)) justs.new }
{
    let step = Step {
        left: Side::Name(name),
        right: Side::Name(name),
        rule: Rule::Refl,
    };
    justs.add(store, step)
}

/// Adds the step that two multisets are equal with one name more each, where steps equate the multisets before and the names.
pub(crate) fn lengthened(
    alloc: Global,
    justs: &mut Justs,
    store: &Store,
    symbol: &AcSymbol,
    left: &[Name],
    right: &[Name],
    many: usize,
    names: usize,
) -> Result<usize, AllocError>
    requires fits { Fits store.now.signature (terms (shapes store.now.nodes)) justs.old }
    requires sorted { AreNamesOf store.now.signature (terms (shapes store.now.nodes)) symbol.now (left.now ++ right.now) }
    requires longer { IsLonger justs.old symbol.now left.now right.now many names }
    ensures states { IfOk result (λ id. StatesMany justs.new id symbol.now left.now right.now) }
    ensures rests { IfOk result (λ id. RestsOnThese justs.old justs.new id (many ∷ names ∷ [])) }
    ensures kept { IsFront justs.old justs.new }
    ensures fits { Fits store.now.signature (terms (shapes store.now.nodes)) justs.new }
{
    longer_multisets_have_a_step();
    let premises = pair(alloc, many, names)?;
    add_many(
        alloc,
        justs,
        store,
        symbol,
        left,
        right,
        Rule::Cong(premises),
    )
}

/// Adds the steps that two multisets which a step equates are equal with more names each.
pub fn extended(
    alloc: Global,
    justs: &mut Justs,
    store: &Store,
    symbol: &AcSymbol,
    left: &[Name],
    right: &[Name],
    step: usize,
    rest: &[Name],
) -> Result<usize, AllocError>
    requires fits { Fits store.now.signature (terms (shapes store.now.nodes)) justs.old }
    requires names { AreNamesOf store.now.signature (terms (shapes store.now.nodes)) symbol.now (left.now ++ right.now ++ rest.now) }
    requires states { StatesMany justs.old step symbol.now left.now right.now }
    requires left { 0 < length left.now }
    requires right { 0 < length right.now }
    ensures states { IfOk result (λ id. StatesMany justs.new id symbol.now (left.now ++ rest.now) (right.now ++ rest.now)) }
    ensures rests { IfOk result (λ id. RestsOnThese justs.old justs.new id (step ∷ [])) }
    ensures kept { IsFront justs.old justs.new }
    ensures fits { Fits store.now.signature (terms (shapes store.now.nodes)) justs.new }
{
    let mut at = step;
    let mut longer = List::from_slice(alloc, left)?;
    let mut others = List::from_slice(alloc, right)?;
    for name in rest {
        let same = itself(justs, store, *name)?;
        longer.push(*name)?;
        others.push(*name)?;
        at = lengthened(
            alloc,
            justs,
            store,
            symbol,
            longer.as_slice(),
            others.as_slice(),
            at,
            same,
        )?;
    }
    Ok(at)
}
