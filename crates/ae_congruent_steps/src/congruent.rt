//! Applications of one head.
ghost use Rattle.std.specs.Prelude.{◌≡◌, true, IfOk, OnErr};
ghost use Rattle.ae_base.specs.Options.{known};
ghost use Rattle.ae_congruent_steps.specs.Congruent.{AreCongruent};
ghost use Rattle.ae_core.specs.Sorts.{sort_of};
ghost use Rattle.ae_just.specs.Steps.{Fits};
ghost use Rattle.ae_just.specs.declared.steps.Side.TheVariants as side;
ghost use Rattle.ae_store.specs.Shapes.{shapes};
ghost use Rattle.ae_store.specs.Terms.{terms, named};
ghost use Rattle.ae_value_steps.specs.Stating.{AddsStep};

use ae_core::lists::List;
use ae_just::justs::Justs;
use ae_just::steps::{Rule, Side, Step};
use ae_num::forms::Name;
use ae_store::store::Store;
use std::alloc::AllocError;

/// Adds the step that two names are equal which apply one head, at the same sorts, to names that the steps of these numbers equate, one by one. The left
/// name is well sorted, so it is no application of a predicate. Refused memory leaves the steps as they were.
pub fn state_congruent(
    store: &Store,
    justs: &mut Justs,
    left: Name,
    right: Name,
    steps: List<usize>,
) -> Result<usize, AllocError>
    requires fits { Fits store.now.signature (terms (shapes store.now.nodes)) justs.old }
    requires congruent { AreCongruent (terms (shapes store.now.nodes)) justs.old left right steps }
    requires sorted { known (sort_of store.now.signature (named (terms (shapes store.now.nodes)) left)) ≡ true }
    ensures added { IfOk result (λ id. AddsStep justs.old justs.new id (side.Name left) (side.Name right) steps) }
    ensures err { OnErr result (justs.new ≡ justs.old) }
    ensures fits { Fits store.now.signature (terms (shapes store.now.nodes)) justs.new }
{
    let congruent = Step {
        left: Side::Name(left),
        right: Side::Name(right),
        rule: Rule::Cong(steps),
    };
    justs.add(store, congruent)
}
