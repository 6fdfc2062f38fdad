//! Steps that equate names.
ghost use Rattle.std.specs.Prelude.{◌≡◌, ℕ, true, [], ◌∷◌, IfOk, OnErr};
ghost use Rattle.ae_base.specs.Options.{known};
ghost use Rattle.ae_core.specs.Sorts.{sort_of};
ghost use Rattle.ae_store.specs.Shapes.{shapes};
ghost use Rattle.ae_store.specs.Terms.{terms, named};
ghost use Rattle.ae_just.specs.Steps.{Fits};
ghost use Rattle.ae_just.specs.declared.steps.Side.TheVariants as side;
ghost use Rattle.ae_state_steps.specs.ValueSteps.{StatesEqual};
ghost use Rattle.ae_value_steps.specs.Stating.{AddsStep};

use ae_just::justs::Justs;
use ae_just::steps::{Rule, Side, Step};
use ae_num::forms::Name;
use ae_store::store::Store;
use std::alloc::AllocError;

/// Adds the step that a name is itself. It rests on nothing.
pub fn state_itself(store: &Store, justs: &mut Justs, name: Name) -> Result<usize, AllocError>
    requires fits { Fits store.now.signature (terms (shapes store.now.nodes)) justs.old }
    requires sorted { known (sort_of store.now.signature (named (terms (shapes store.now.nodes)) name)) ≡ true }
    ensures added { IfOk result (λ id. AddsStep justs.old justs.new id (side.Name name) (side.Name name) []) }
    ensures err { OnErr result (justs.new ≡ justs.old) }
    ensures fits { Fits store.now.signature (terms (shapes store.now.nodes)) justs.new }
{
    let step = Step {
        left: Side::Name(name),
        right: Side::Name(name),
        rule: Rule::Refl,
    };
    justs.add(store, step)
}

/// Adds the step that two names are equal which two steps equate with a third.
pub fn state_chained(
    store: &Store,
    justs: &mut Justs,
    left: Name,
    right: Name,
    first: usize,
    second: usize,
) -> Result<usize, AllocError>
    requires fits { Fits store.now.signature (terms (shapes store.now.nodes)) justs.old }
    requires equal { (between : ℕ) × StatesEqual justs.old first left between × StatesEqual justs.old second between right }
    ensures added { IfOk result (λ id. AddsStep justs.old justs.new id (side.Name left) (side.Name right) (first ∷ second ∷ [])) }
    ensures err { OnErr result (justs.new ≡ justs.old) }
    ensures fits { Fits store.now.signature (terms (shapes store.now.nodes)) justs.new }
{
    let step = Step {
        left: Side::Name(left),
        right: Side::Name(right),
        rule: Rule::Trans(first, second),
    };
    justs.add(store, step)
}

/// Adds the step that states the equation of another with its sides changed over.
pub fn state_turned(
    store: &Store,
    justs: &mut Justs,
    left: Name,
    right: Name,
    step: usize,
) -> Result<usize, AllocError>
    requires fits { Fits store.now.signature (terms (shapes store.now.nodes)) justs.old }
    requires equal { StatesEqual justs.old step right left }
    ensures added { IfOk result (λ id. AddsStep justs.old justs.new id (side.Name left) (side.Name right) (step ∷ [])) }
    ensures err { OnErr result (justs.new ≡ justs.old) }
    ensures fits { Fits store.now.signature (terms (shapes store.now.nodes)) justs.new }
{
    let turned = Step {
        left: Side::Name(left),
        right: Side::Name(right),
        rule: Rule::Sym(step),
    };
    justs.add(store, turned)
}
