//! The equation of the overlap of two rules.
ghost use Rattle.std.specs.Prelude.{◌≡◌, IfOk, IfNone, IfSome};
ghost use Rattle.ae_gaps.specs.Inner.Overlapping.{IsOverlapSaid};
ghost use Rattle.ae_just.specs.Steps.{Fits};
ghost use Rattle.ae_monoid.specs.Equations.{AreApart};
ghost use Rattle.ae_monoid.specs.Rules.{rule_at};
ghost use Rattle.ae_rule_steps.specs.Said.{AreSaid};
ghost use Rattle.ae_store.specs.Growing.{IsFront};
ghost use Rattle.ae_store.specs.Shapes.{shapes};
ghost use Rattle.ae_store.specs.Terms.{terms};

use ae_equations::Waiting;
use ae_just::justs::Justs;
use ae_monoid::{PendingPair, Rules};
use ae_rule_steps::overlap_stated;
use ae_store::store::Store;
use std::alloc::{AllocError, Global};

/// The equation of an overlap, with the number of the step that states it.
fn equation_of(pair: PendingPair, step: usize) -> Waiting
    ensures { result ≡ record { symbol = pair.symbol; left = pair.left; right = pair.right; step = step } }
{
    Waiting {
        symbol: pair.symbol,
        left: pair.left,
        right: pair.right,
        step,
    }
}

/// The equation of the overlap of two rules, with the steps that state it; `None` exactly where they don't overlap, or one of them doesn't stand.
pub(crate) fn overlap_equation(
    alloc: Global,
    justs: &mut Justs,
    store: &Store,
    rules: &Rules,
    first: usize,
    second: usize,
) -> Result<Option<Waiting>, AllocError>
    requires fits { Fits store.now.signature (terms (shapes store.now.nodes)) justs.old }
    requires said { AreSaid store.now.signature (terms (shapes store.now.nodes)) justs.old (λ n. rule_at rules.now n) }
    ensures none { IfOk result (λ o. IfNone o (AreApart (rule_at rules.now first) (rule_at rules.now second))) }
    ensures some { IfOk result (λ o. IfSome o (λ w. IsOverlapSaid store.now.signature (terms (shapes store.now.nodes)) justs.old justs.new (λ n. rule_at rules.now n) first second w)) }
    ensures kept { IsFront justs.old justs.new }
    ensures fits { Fits store.now.signature (terms (shapes store.now.nodes)) justs.new }
{
    let Some(one) = rules.rule(first) else {
        return Ok(None);
    };
    let Some(other) = rules.rule(second) else {
        return Ok(None);
    };
    let Some(pair) = rules.overlaps(first, second)? else {
        return Ok(None);
    };
    let step = overlap_stated(alloc, justs, store, one, other, &pair)?;
    Ok(Some(equation_of(pair, step)))
}
