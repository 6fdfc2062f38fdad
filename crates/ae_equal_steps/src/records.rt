//! Records whose fields are equal.
ghost use Rattle.std.specs.Prelude.{◌≡◌, IfOk, OnErr};
ghost use Rattle.ae_store.specs.Shapes.{shapes};
ghost use Rattle.ae_store.specs.Terms.{terms};
ghost use Rattle.ae_just.specs.Steps.{Fits, IsAllowedStep};
ghost use Rattle.ae_just.specs.declared.steps.Rule.TheVariants as rule;
ghost use Rattle.ae_just.specs.declared.steps.Side.TheVariants as side;
ghost use Rattle.ae_value_steps.specs.Stating.{AddsStep};

use ae_core::lists::List;
use ae_just::justs::Justs;
use ae_just::steps::{Rule, Side, Step};
use ae_num::forms::Name;
use ae_store::store::Store;
use std::alloc::AllocError;

/// Adds the step that two records are equal whose fields the steps equate.
pub(crate) fn state_fields(
    store: &Store,
    justs: &mut Justs,
    left: Name,
    right: Name,
    steps: List<usize>,
) -> Result<usize, AllocError>
    requires fits { Fits store.now.signature (terms (shapes store.now.nodes)) justs.old }
    requires allowed { IsAllowedStep store.now.signature (terms (shapes store.now.nodes)) justs.old (record { left = side.Name left; right = side.Name right; rule = rule.Fields steps }) }
    ensures added { IfOk result (λ id. AddsStep justs.old justs.new id (side.Name left) (side.Name right) steps) }
    ensures err { OnErr result (justs.new ≡ justs.old) }
    ensures fits { Fits store.now.signature (terms (shapes store.now.nodes)) justs.new }
{
    let step = Step {
        left: Side::Name(left),
        right: Side::Name(right),
        rule: Rule::Fields(steps),
    };
    justs.add(store, step)
}
