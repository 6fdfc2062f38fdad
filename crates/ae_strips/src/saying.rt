//! Steps that equate names of fields with what they come down to.
ghost use Rattle.std.specs.Prelude.{◌≡◌, [], ◌∷◌, IfOk, OnErr};
ghost use Rattle.ae_store.specs.Growing.{IsFront};
ghost use Rattle.ae_store.specs.Shapes.{shapes};
ghost use Rattle.ae_store.specs.Terms.{terms};
ghost use Rattle.ae_just.specs.Steps.{Fits};
ghost use Rattle.ae_just.specs.declared.steps.Side.TheVariants as side;
ghost use Rattle.ae_value_steps.specs.Stating.{AddsStep};
ghost use Rattle.ae_strips.specs.Stripping.{IsSaidBy};
ghost use Rattle.ae_strips.specs.Inner.Saying.{AreMoved, IsFieldOfWritten};

use ae_core::lists::List;
use ae_just::justs::Justs;
use ae_just::steps::{Rule, Side, Step};
use ae_num::forms::Name;
use ae_store::store::Store;
use ae_value_steps::state_chained;
use std::alloc::{AllocError, Global};

/// One number.
fn one(alloc: Global, number: usize) -> Result<List<usize>, AllocError>
    ensures { IfOk result (λ numbers. numbers ≡ number ∷ []) }
{
    let mut numbers = List::new(alloc);
    numbers.push(number)?;
    Ok(numbers)
}

/// Adds the step that the same field of two names is equal, which a step equates.
pub(crate) fn state_moved(
    alloc: Global,
    store: &Store,
    justs: &mut Justs,
    left: Name,
    right: Name,
    step: usize,
) -> Result<usize, AllocError>
    requires fits { Fits store.now.signature (terms (shapes store.now.nodes)) justs.old }
    requires moved { AreMoved (terms (shapes store.now.nodes)) justs.old left right step }
    ensures added { IfOk result (λ id. AddsStep justs.old justs.new id (side.Name left) (side.Name right) (step ∷ [])) }
    ensures err { OnErr result (justs.new ≡ justs.old) }
    ensures fits { Fits store.now.signature (terms (shapes store.now.nodes)) justs.new }
{
    let _len = store.len();
    let steps = one(alloc, step)?;
    let moved = Step {
        left: Side::Name(left),
        right: Side::Name(right),
        rule: Rule::Cong(steps),
    };
    justs.add(store, moved)
}

/// Adds the step that a field of a written record is what stands in its place.
pub(crate) fn state_argument(
    store: &Store,
    justs: &mut Justs,
    field: Name,
    argument: Name,
) -> Result<usize, AllocError>
    requires fits { Fits store.now.signature (terms (shapes store.now.nodes)) justs.old }
    requires written { IsFieldOfWritten (terms (shapes store.now.nodes)) field argument }
    ensures added { IfOk result (λ id. AddsStep justs.old justs.new id (side.Name field) (side.Name argument) []) }
    ensures err { OnErr result (justs.new ≡ justs.old) }
    ensures fits { Fits store.now.signature (terms (shapes store.now.nodes)) justs.new }
{
    let _len = store.len();
    let step = Step {
        left: Side::Name(field),
        right: Side::Name(argument),
        rule: Rule::Field,
    };
    justs.add(store, step)
}

/// The number of the step that equates a name with what a name comes down to, with which it is equated; `None` where the two are one.
pub(crate) fn said_through(
    store: &Store,
    justs: &mut Justs,
    left: Name,
    between: Name,
    right: Name,
    first: Option<usize>,
    second: Option<usize>,
) -> Result<Option<usize>, AllocError>
    requires fits { Fits store.now.signature (terms (shapes store.now.nodes)) justs.old }
    requires first { IsSaidBy justs.old left between first }
    requires second { IsSaidBy justs.old between right second }
    ensures said { IfOk result (λ step. IsSaidBy justs.new left right step) }
    ensures front { IsFront justs.old justs.new }
    ensures fits { Fits store.now.signature (terms (shapes store.now.nodes)) justs.new }
{
    match first {
        None => Ok(second),
        Some(one) => match second {
            None => Ok(Some(one)),
            Some(other) => {
                let step = state_chained(store, justs, left, right, one, other)?;
                Ok(Some(step))
            }
        },
    }
}
