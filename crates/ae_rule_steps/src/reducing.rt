//! Reduction with its steps.
ghost use Rattle.std.specs.Prelude.{◌≡◌, ◌<◌, ◌∷◌, [], length, IfOk};
ghost use Rattle.std.specs.List.Sorted.{IsNonDecreasing};
ghost use Rattle.ae_multiset.specs.Multisets.{IsPart};
ghost use Rattle.ae_multiset.specs.Rewriting.{ReducesTo, IsReduced};
ghost use Rattle.ae_store.specs.Growing.{IsFront};
ghost use Rattle.ae_store.specs.Shapes.{shapes};
ghost use Rattle.ae_store.specs.Terms.{terms};
ghost use Rattle.ae_just.specs.Steps.{Fits};
ghost use Rattle.ae_state_steps.specs.ManySteps.{StatesMany};
ghost use Rattle.ae_multiset_steps.specs.Equating.{RestsOnThese, AreNamesOf};
ghost use Rattle.ae_monoid.specs.Rules.{rule_at, IsRuleOf, IsWellKept};
ghost use Rattle.ae_monoid.specs.Reductions.{IsTurned};
ghost use Rattle.ae_rule_steps.specs.Said.{IsSaid, AreSaid, RestsOnRules};

use crate::finding::fitting;
use crate::turning::{Reached, turned};
use ae_core::lists::List;
use ae_core::problems::AcSymbol;
use ae_just::justs::Justs;
use ae_monoid::{Kept, Rules};
use ae_multiset::spelled;
use ae_multiset_steps::{chained, reordered};
use ae_num::forms::Name;
use ae_store::store::Store;
use std::alloc::{AllocError, Global};

/// What the multiset is rewritten to by one rule more, with the step that equates it with the multiset at the start.
fn advanced(
    alloc: Global,
    justs: &mut Justs,
    store: &Store,
    symbol: &AcSymbol,
    names: &[Name],
    now: &Reached,
    rule: &Kept,
) -> Result<Reached, AllocError>
    requires fits { Fits store.now.signature (terms (shapes store.now.nodes)) justs.old }
    requires names { AreNamesOf store.now.signature (terms (shapes store.now.nodes)) symbol.now now.now.names }
    requires rises { IsNonDecreasing now.now.names }
    requires states { StatesMany justs.old now.now.step symbol.now names.now now.now.names }
    requires rule { IsWellKept rule.now }
    requires of { rule.now.entry.symbol ≡ symbol.now }
    requires said { IsSaid store.now.signature (terms (shapes store.now.nodes)) justs.old rule.now }
    requires part { IsPart rule.now.entry.left now.now.names }
    ensures turned { IfOk result (λ r. IsTurned rule.now now.now.names r.names) }
    ensures names { IfOk result (λ r. AreNamesOf store.now.signature (terms (shapes store.now.nodes)) symbol.now r.names) }
    ensures rises { IfOk result (λ r. IsNonDecreasing r.names) }
    ensures states { IfOk result (λ r. StatesMany justs.new r.step symbol.now names.now r.names) }
    ensures rests { IfOk result (λ r. RestsOnThese justs.old justs.new r.step (now.now.step ∷ rule.now.just ∷ [])) }
    ensures kept { IsFront justs.old justs.new }
    ensures fits { Fits store.now.signature (terms (shapes store.now.nodes)) justs.new }
{
    let next = turned(alloc, justs, store, symbol, rule, now.names.as_slice())?;
    let step = chained(
        alloc,
        justs,
        store,
        symbol,
        names,
        next.names.as_slice(),
        now.step,
        next.step,
    )?;
    Ok(Reached {
        names: next.names,
        step,
    })
}

/// What a multiset reduces to by the rules of a symbol, where no left side is a part any more, with the steps that equate the two.
///
/// Each turn adds a step, so memory ends before the turns do.
pub fn reduced(
    alloc: Global,
    justs: &mut Justs,
    store: &Store,
    rules: &Rules,
    symbol: &AcSymbol,
    names: &[Name],
) -> Result<Reached, AllocError>
    requires fits { Fits store.now.signature (terms (shapes store.now.nodes)) justs.old }
    requires names { AreNamesOf store.now.signature (terms (shapes store.now.nodes)) symbol.now names.now }
    requires some { 0 < length names.now }
    requires said { AreSaid store.now.signature (terms (shapes store.now.nodes)) justs.old (λ n. rule_at rules.now n) }
    ensures follows { IfOk result (λ r. ReducesTo (IsRuleOf (λ n. rule_at rules.now n) symbol.now) names.now r.names) }
    ensures reduced { IfOk result (λ r. IsReduced (IsRuleOf (λ n. rule_at rules.now n) symbol.now) r.names) }
    ensures rises { IfOk result (λ r. IsNonDecreasing r.names) }
    ensures names { IfOk result (λ r. AreNamesOf store.now.signature (terms (shapes store.now.nodes)) symbol.now r.names) }
    ensures states { IfOk result (λ r. StatesMany justs.new r.step symbol.now names.now r.names) }
    ensures rests { IfOk result (λ r. RestsOnRules (λ n. rule_at rules.now n) symbol.now justs.old justs.new r.step) }
    ensures kept { IsFront justs.old justs.new }
    ensures fits { Fits store.now.signature (terms (shapes store.now.nodes)) justs.new }
{
    let order = spelled(alloc, names)?;
    let first = List::from_vec(order);
    let step = reordered(alloc, justs, store, symbol, names, first.as_slice())?;
    let mut now = Reached { names: first, step };
    'turns: for _turn in 0..usize::MAX {
        let Some(number) = fitting(rules, symbol, now.names.as_slice()) else {
            return Ok(now);
        };
        let Some(rule) = rules.rule(number) else {
            return Ok(now);
        };
        now = advanced(alloc, justs, store, symbol, names, &now, rule)?;
    }
    Err(AllocError)
}
