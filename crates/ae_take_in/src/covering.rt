//! Names that come down to others, whose numbers and leaves they have.
ghost use Rattle.std.specs.Prelude.{◌≡◌, ◌<◌, ℕ, length, Some, IfOk, IfSome, IfNone};
ghost use Rattle.ae_pmap.specs.Forest.{present};
ghost use Rattle.ae_pmap.specs.Pairs.{found};
ghost use Rattle.ae_store.specs.Growing.{IsFront};
ghost use Rattle.ae_store.specs.Shapes.{shapes};
ghost use Rattle.ae_store.specs.Terms.{terms};
ghost use Rattle.ae_just.specs.Steps.{Fits};
ghost use Rattle.ae_state_steps.specs.ValueSteps.{IsNumberName};
ghost use Rattle.ae_strips.specs.Stripping.{StripsTo};
ghost use Rattle.ae_value_table.specs.Table.{just_at};
ghost use Rattle.ae_value_fitting.specs.Fitting.{AreSaid};
ghost use Rattle.ae_take_in.specs.Inner.Next.{IsOther, IsCoveredNumber, IsCoveredLeaf};

use crate::given::given;
use ae_first_values::Given;
use ae_just::justs::Justs;
use ae_num::forms::Name;
use ae_store::store::Store;
use ae_strips::strip;
use ae_value_steps::{Valued, state_chained, state_covered};
use ae_value_table::Values;
use std::alloc::{AllocError, Global};

/// A leaf, and the number of the step that equates a name with it.
#[derive(Clone, Copy)]
pub(crate) struct Led {
    pub(crate) leaf: Name,
    pub(crate) step: usize,
}

/// Another name, and the number of the step that equates a name with it.
#[derive(Clone, Copy)]
pub(crate) struct Other {
    pub(crate) name: Name,
    pub(crate) step: usize,
}

/// The other name that a name comes down to; `None` where it comes down to itself.
fn other_name(
    alloc: Global,
    store: &Store,
    justs: &mut Justs,
    name: Name,
) -> Result<Option<Other>, AllocError>
    requires fits { Fits store.now.signature (terms (shapes store.now.nodes)) justs.old }
    requires name { name < length store.now.nodes }
    ensures some { IfOk result (λ o. IfSome o (λ other. IsOther (terms (shapes store.now.nodes)) justs.new name other)) }
    ensures none { IfOk result (λ o. IfNone o (StripsTo (terms (shapes store.now.nodes)) name name)) }
    ensures front { IsFront justs.old justs.new }
    ensures fits { Fits store.now.signature (terms (shapes store.now.nodes)) justs.new }
{
    let end = strip(alloc, store, justs, name)?;
    if end.name == name {
        return Ok(None);
    }
    let Some(step) = end.step else {
        return Ok(None);
    };
    Ok(Some(Other {
        name: end.name,
        step,
    }))
}

/// The number of the name that a name comes down to, with the step that states it of this one; `None` where that is itself.
pub(crate) fn covered_number(
    alloc: Global,
    values: &Values,
    store: &Store,
    justs: &mut Justs,
    name: Name,
    real: bool,
) -> Result<Option<Given>, AllocError>
    requires fits { Fits store.now.signature (terms (shapes store.now.nodes)) justs.old }
    requires said { AreSaid store.now.signature (terms (shapes store.now.nodes)) justs.old values.now }
    requires name { IsNumberName store.now.signature (terms (shapes store.now.nodes)) real name }
    requires within { name < length store.now.nodes }
    ensures some { IfOk result (λ o. IfSome o (λ given. IsCoveredNumber store.now.signature (terms (shapes store.now.nodes)) justs.old justs.new values.now real name given)) }
    ensures none { IfOk result (λ o. IfNone o (StripsTo (terms (shapes store.now.nodes)) name name)) }
    ensures front { IsFront justs.old justs.new }
    ensures fits { Fits store.now.signature (terms (shapes store.now.nodes)) justs.new }
{
    let _len = store.len();
    let found = other_name(alloc, store, justs, name)?;
    let Some(end) = found else {
        return Ok(None);
    };
    let whole = given(alloc, values, store, justs, end.name, real)?;
    let valued = Valued {
        name: end.name,
        value: &whole.value,
        step: whole.step,
    };
    let step = state_covered(alloc, store, justs, name, &valued, end.step, real)?;
    Ok(Some(Given {
        value: whole.value,
        step,
    }))
}

/// The number of the step that says the leaf of a name, where one was put.
fn leaf_step(values: &Values, name: Name) -> Option<usize>
    ensures some { IfSome result (λ step. (m : ℕ) × (found (present values.now.leaves) name ≡ Some m) × (just_at values.now name ≡ Some step)) }
    ensures none { IfNone result ((m step : ℕ) → found (present values.now.leaves) name ≡ Some m → just_at values.now name ≡ Some step → ⊥) }
{
    if !values.has_leaf(name, values.leaf(name)) {
        return None;
    }
    let step = values.just(name)?;
    Some(step)
}

/// The leaf of the name that a name comes down to, with the step that equates this one with it; `None` where that is itself.
pub(crate) fn covered_leaf(
    alloc: Global,
    values: &Values,
    store: &Store,
    justs: &mut Justs,
    name: Name,
) -> Result<Option<Led>, AllocError>
    requires fits { Fits store.now.signature (terms (shapes store.now.nodes)) justs.old }
    requires said { AreSaid store.now.signature (terms (shapes store.now.nodes)) justs.old values.now }
    requires within { name < length store.now.nodes }
    ensures some { IfOk result (λ o. IfSome o (λ led. IsCoveredLeaf (terms (shapes store.now.nodes)) justs.old justs.new values.now name led)) }
    ensures none { IfOk result (λ o. IfNone o (StripsTo (terms (shapes store.now.nodes)) name name)) }
    ensures front { IsFront justs.old justs.new }
    ensures fits { Fits store.now.signature (terms (shapes store.now.nodes)) justs.new }
{
    let found = other_name(alloc, store, justs, name)?;
    let Some(end) = found else {
        return Ok(None);
    };
    match leaf_step(values, end.name) {
        None => Ok(Some(Led {
            leaf: end.name,
            step: end.step,
        })),
        Some(said) => {
            let leaf = values.leaf(end.name);
            let step = state_chained(store, justs, name, leaf, end.step, said)?;
            Ok(Some(Led { leaf, step }))
        }
    }
}
