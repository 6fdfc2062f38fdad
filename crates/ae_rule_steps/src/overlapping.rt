//! The equation of an overlap, with its steps.
ghost use Rattle.std.specs.Prelude.{◌≡◌, IfOk};
ghost use Rattle.ae_store.specs.Growing.{IsFront};
ghost use Rattle.ae_store.specs.Shapes.{shapes};
ghost use Rattle.ae_store.specs.Terms.{terms};
ghost use Rattle.ae_just.specs.Steps.{Fits};
ghost use Rattle.ae_state_steps.specs.ManySteps.{StatesMany};
ghost use Rattle.ae_multiset_steps.specs.Equating.{RestsOnThese};
ghost use Rattle.ae_monoid.specs.Rules.{IsWellKept};
ghost use Rattle.ae_monoid.specs.Equations.{IsDeduced};
ghost use Rattle.ae_rule_steps.specs.Said.{IsSaid};

use ae_just::justs::Justs;
use ae_monoid::{Kept, PendingPair};
use ae_multiset::{common, minus};
use ae_multiset_steps::{Rewriting, overlapped};
use ae_store::store::Store;
use std::alloc::{AllocError, Global};

/// Adds the steps that the two sides of the equation that two rules' overlap gives are equal.
pub fn overlap_stated(
    alloc: Global,
    justs: &mut Justs,
    store: &Store,
    first: &Kept,
    second: &Kept,
    pair: &PendingPair,
) -> Result<usize, AllocError>
    requires fits { Fits store.now.signature (terms (shapes store.now.nodes)) justs.old }
    requires first_well { IsWellKept first.now }
    requires second_well { IsWellKept second.now }
    requires first_said { IsSaid store.now.signature (terms (shapes store.now.nodes)) justs.old first.now }
    requires second_said { IsSaid store.now.signature (terms (shapes store.now.nodes)) justs.old second.now }
    requires same { first.now.entry.symbol ≡ second.now.entry.symbol }
    requires deduced { IsDeduced first.now second.now pair.now }
    ensures states { IfOk result (λ id. StatesMany justs.new id pair.now.symbol pair.now.left pair.now.right) }
    ensures rests { IfOk result (λ id. RestsOnThese justs.old justs.new id pair.now.justs) }
    ensures kept { IsFront justs.old justs.new }
    ensures fits { Fits store.now.signature (terms (shapes store.now.nodes)) justs.new }
{
    let left = first.entry.left.as_slice();
    let other = second.entry.left.as_slice();
    let both = common(alloc, left, other)?;
    let shared = both.as_slice();
    let first_rest = minus(alloc, other, shared)?;
    let second_rest = minus(alloc, left, shared)?;
    let first_right = first.entry.right.as_slice();
    let second_right = second.entry.right.as_slice();
    let first_beside = first_rest.as_slice();
    let second_beside = second_rest.as_slice();
    let first_side = pair.left.as_slice();
    let second_side = pair.right.as_slice();
    let one = Rewriting {
        left,
        right: first_right,
        step: first.just,
        rest: first_beside,
        result: first_side,
    };
    let two = Rewriting {
        left: other,
        right: second_right,
        step: second.just,
        rest: second_beside,
        result: second_side,
    };
    overlapped(alloc, justs, store, &pair.symbol, one, two)
}
