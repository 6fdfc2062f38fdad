//! Names of one leaf.
ghost use Rattle.std.specs.Prelude.{◌≡◌, [], true, IfOk};
ghost use Rattle.ae_base.specs.Options.{known};
ghost use Rattle.ae_core.specs.Sorts.{sort_of};
ghost use Rattle.ae_store.specs.Growing.{IsFront};
ghost use Rattle.ae_store.specs.Shapes.{shapes};
ghost use Rattle.ae_store.specs.Terms.{terms, named};
ghost use Rattle.ae_just.specs.Steps.{Fits};
ghost use Rattle.ae_state_steps.specs.ValueSteps.{StatesEqual};
ghost use Rattle.ae_value_table.specs.Table.{leaf_at};
ghost use Rattle.ae_value_fitting.specs.Fitting.{AreSaid};
ghost use Rattle.ae_value_fitting.specs.Sources.{RestsOnValues};
ghost use Rattle.ae_equal_steps.specs.Inner.Pairs.{IsHeld, AreSameLeaves};

use crate::said::said_by;
use ae_just::justs::Justs;
use ae_num::forms::Name;
use ae_store::store::Store;
use ae_value_steps::{state_chained, state_itself, state_turned};
use ae_value_table::Values;
use std::alloc::AllocError;

/// The number of a step that equates a name with its leaf: the one that says it, and a new one where the name is its own leaf. It rests on the steps that
/// say values.
pub fn leaf_step(
    values: &Values,
    store: &Store,
    justs: &mut Justs,
    name: Name,
) -> Result<usize, AllocError>
    requires fits { Fits store.now.signature (terms (shapes store.now.nodes)) justs.old }
    requires said { AreSaid store.now.signature (terms (shapes store.now.nodes)) justs.old values.now }
    requires sorted { known (sort_of store.now.signature (named (terms (shapes store.now.nodes)) name)) ≡ true }
    ensures states { IfOk result (λ id. StatesEqual justs.new id name (leaf_at values.now name)) }
    ensures rests { IfOk result (λ id. RestsOnValues justs.old justs.new values.now [] id) }
    ensures front { IsFront justs.old justs.new }
    ensures fits { Fits store.now.signature (terms (shapes store.now.nodes)) justs.new }
{
    let leaf = values.leaf(name);
    if leaf == name {
        return state_itself(store, justs, name);
    }
    Ok(said_by(values, name))
}

/// Adds the step that two names of one leaf are equal.
pub(crate) fn equal_leaves(
    values: &Values,
    store: &Store,
    justs: &mut Justs,
    left: Name,
    right: Name,
) -> Result<usize, AllocError>
    requires held { IsHeld store.now justs.old values.now }
    requires same { AreSameLeaves store.now.signature (terms (shapes store.now.nodes)) values.now left right }
    ensures states { IfOk result (λ id. StatesEqual justs.new id left right) }
    ensures rests { IfOk result (λ id. RestsOnValues justs.old justs.new values.now [] id) }
    ensures front { IsFront justs.old justs.new }
    ensures fits { Fits store.now.signature (terms (shapes store.now.nodes)) justs.new }
{
    let leaf = values.leaf(right);
    let first = leaf_step(values, store, justs, left)?;
    let second = leaf_step(values, store, justs, right)?;
    let back = state_turned(store, justs, leaf, right, second)?;
    state_chained(store, justs, left, right, first, back)
}
