//! One rewriting by a rule, with its steps.
ghost use Rattle.std.specs.Prelude.{◌≡◌, ◌++◌, ◌∷◌, [], IfOk};
ghost use Rattle.std.specs.List.Sorted.{IsNonDecreasing};
ghost use Rattle.ae_multiset.specs.Multisets.{IsPart};
ghost use Rattle.ae_store.specs.Growing.{IsFront};
ghost use Rattle.ae_store.specs.Shapes.{shapes};
ghost use Rattle.ae_store.specs.Terms.{terms};
ghost use Rattle.ae_just.specs.Steps.{Fits};
ghost use Rattle.ae_state_steps.specs.ManySteps.{StatesMany};
ghost use Rattle.ae_multiset_steps.specs.Equating.{RestsOnThese, AreNamesOf};
ghost use Rattle.ae_monoid.specs.Rules.{IsWellKept};
ghost use Rattle.ae_monoid.specs.Reductions.{IsTurned};
ghost use Rattle.ae_rule_steps.specs.Said.{IsSaid};

use ae_core::lists::List;
use ae_core::problems::AcSymbol;
use ae_just::justs::Justs;
use ae_monoid::Kept;
use ae_multiset::{minus, sum};
use ae_multiset_steps::{Rewriting, chained, rewritten};
use ae_num::forms::Name;
use ae_store::store::Store;
use std::alloc::{AllocError, Global};

/// What a multiset was rewritten to, in rising order, and the number of the step that equates the two.
#[derive(Drop)]
pub struct Reached {
    pub names: List<Name>,
    pub step: usize,
}

/// The multiset with the right side of a rule for its left side.
pub(crate) fn turned(
    alloc: Global,
    justs: &mut Justs,
    store: &Store,
    symbol: &AcSymbol,
    rule: &Kept,
    names: &[Name],
) -> Result<Reached, AllocError>
    requires fits { Fits store.now.signature (terms (shapes store.now.nodes)) justs.old }
    requires names { AreNamesOf store.now.signature (terms (shapes store.now.nodes)) symbol.now names.now }
    requires rises { IsNonDecreasing names.now }
    requires rule { IsWellKept rule.now }
    requires of { rule.now.entry.symbol ≡ symbol.now }
    requires said { IsSaid store.now.signature (terms (shapes store.now.nodes)) justs.old rule.now }
    requires part { IsPart rule.now.entry.left names.now }
    ensures turned { IfOk result (λ r. IsTurned rule.now names.now r.names) }
    ensures names { IfOk result (λ r. AreNamesOf store.now.signature (terms (shapes store.now.nodes)) symbol.now r.names) }
    ensures rises { IfOk result (λ r. IsNonDecreasing r.names) }
    ensures states { IfOk result (λ r. StatesMany justs.new r.step symbol.now names.now r.names) }
    ensures rests { IfOk result (λ r. RestsOnThese justs.old justs.new r.step (rule.now.just ∷ [])) }
    ensures kept { IsFront justs.old justs.new }
    ensures fits { Fits store.now.signature (terms (shapes store.now.nodes)) justs.new }
{
    let left = rule.entry.left.as_slice();
    let right = rule.entry.right.as_slice();
    let rest = minus(alloc, names, left)?;
    let beside = rest.as_slice();
    let put = sum(alloc, right, beside)?;
    let result = List::from_vec(put);
    let by = Rewriting {
        left,
        right,
        step: rule.just,
        rest: beside,
        result: result.as_slice(),
    };
    let step = rewritten(alloc, justs, store, symbol, names, by)?;
    Ok(Reached {
        names: result,
        step,
    })
}
