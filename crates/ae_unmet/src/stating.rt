//! Steps that equate names.
ghost use Rattle.std.specs.Prelude.{◌≡◌, ℕ, true, map, IfOk};
ghost use Rattle.ae_conflicts.specs.Saying.{RestsOnAssumed, SaysEqual, SayEqual};
ghost use Rattle.ae_pmap.specs.Forest.{present};
ghost use Rattle.ae_state_steps.specs.ValueSteps.{StatesEqual};
ghost use Rattle.ae_store.specs.Terms.{named};
ghost use Rattle.ae_theory.specs.Names.{terms_in};
ghost use Rattle.ae_literals.specs.declared.unmet.Unmet.TheVariants.{LeftOut};
ghost use Rattle.ae_literals.specs.declared.said.Said.TheVariants.{Equal};
ghost use Rattle.ae_pmap.specs.Pairs.{found};
ghost use Rattle.ae_turns.specs.Representing.{IsTaken};
ghost use Rattle.ae_unmet.specs.Inner.Found.{IsFound, HaveOneValue, HaveOneValueEach};
ghost use Rattle.ae_unmet.specs.Inner.Growing.{HasGrown};

use crate::saying::tag_at;
use ae_core::lists::List;
use ae_equal_steps::equal_step;
use ae_just::steps::{Rule, Side, Step};
use ae_num::forms::Name;
use ae_state::Holding;
use ae_store::store::Store;
use std::alloc::{AllocError, Global};

/// Adds the step that two names of one value are equal.
pub(crate) fn state_equal(
    alloc: Global,
    held: &mut Holding,
    store: &Store,
    left: Name,
    right: Name,
) -> Result<usize, AllocError>
    requires taken { IsTaken held.old store.now }
    requires same { HaveOneValue store.now held.old left right }
    ensures grown { HasGrown store.now held.old held.new }
    ensures says { IfOk result (λ id. SaysEqual (terms_in store.now) held.new.justs (present held.old.assumed) id (named (terms_in store.now) left) (named (terms_in store.now) right)) }
{
    equal_step(alloc, &held.values, store, &mut held.justs, left, right)
}

/// Adds the steps that the names of two lists are equal, one by one.
pub(crate) fn state_each(
    alloc: Global,
    held: &mut Holding,
    store: &Store,
    left: &[Name],
    right: &[Name],
) -> Result<List<usize>, AllocError>
    requires taken { IsTaken held.old store.now }
    requires same { HaveOneValueEach store.now held.old left.now right.now }
    ensures grown { HasGrown store.now held.old held.new }
    ensures say { IfOk result (λ ids. SayEqual (terms_in store.now) held.new.justs (present held.old.assumed) ids (map (named (terms_in store.now)) left.now) (map (named (terms_in store.now)) right.now)) }
{
    let mut steps = List::new(alloc);
    for i in 0..left.len() {
        let step = state_equal(alloc, held, store, left[i], right[i])?;
        steps.push(step)?;
    }
    Ok(steps)
}

/// Adds the step that two names are equal which the literal at a place says to be.
pub(crate) fn state_literal(
    held: &mut Holding,
    store: &Store,
    place: usize,
    left: Name,
    right: Name,
) -> Result<usize, AllocError>
    requires taken { IsTaken held.old store.now }
    requires found { IsFound store.now held.old (LeftOut place) }
    requires said { found (present held.old.said) place ≡ Some (Equal true left right) }
    ensures grown { HasGrown store.now held.old held.new }
    ensures states { IfOk result (λ id. StatesEqual held.new.justs id left right) }
    ensures rests { IfOk result (λ id. RestsOnAssumed (terms_in store.now) held.new.justs (present held.old.assumed) id) }
{
    let tag = tag_at(held, place);
    let step = Step {
        left: Side::Name(left),
        right: Side::Name(right),
        rule: Rule::Hyp(tag),
    };
    held.justs.add(store, step)
}
