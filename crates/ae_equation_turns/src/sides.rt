//! Sides of equations with representatives for their names, and reduced by rules.
ghost use Rattle.std.specs.Prelude.{◌≡◌, ◌<◌, ◌++◌, length, map, IfOk};
ghost use Rattle.std.specs.List.Sorted.{IsNonDecreasing};
ghost use Rattle.ae_multiset.specs.Multisets.{rising};
ghost use Rattle.ae_multiset.specs.Rewriting.{IsReduced};
ghost use Rattle.ae_settled.specs.Swept.{AreOwn};
ghost use Rattle.ae_store.specs.Growing.{IsFront};
ghost use Rattle.ae_store.specs.Shapes.{shapes};
ghost use Rattle.ae_store.specs.Terms.{terms};
ghost use Rattle.ae_just.specs.Steps.{Fits};
ghost use Rattle.ae_state_steps.specs.ManySteps.{StatesMany};
ghost use Rattle.ae_multiset_steps.specs.Equating.{RestsOnThese, AreNamesOf, AreEquated};
ghost use Rattle.ae_monoid.specs.Rules.{rule_at, IsRuleOf};
ghost use Rattle.ae_rule_steps.specs.Said.{AreSaid};
ghost use Rattle.ae_sweeps.specs.Given.{rep_in};
ghost use Rattle.ae_equation_turns.specs.Said.{RestsOnHeld};
ghost use Rattle.ae_equation_turns.specs.Turned.{DescendsBy, AreRightsOwn, AreLeast};

use ae_core::lists::List;
use ae_core::problems::AcSymbol;
use ae_just::justs::Justs;
use ae_monoid::Rules;
use ae_multiset::spelled;
use ae_multiset_steps::{chained, renamed, reordered};
use ae_num::forms::Name;
use ae_rule_steps::{Reached, reduced};
use ae_store::store::Store;
use ae_sweeps::representatives;
use std::alloc::{AllocError, Global};

/// A multiset with representatives for its names, in rising order, and the step that equates the two. Each name comes
/// with the number of a step that equates it with its representative.
pub fn renamed_side(
    alloc: Global,
    justs: &mut Justs,
    store: &Store,
    symbol: &AcSymbol,
    names: &[Name],
    reps: &[Name],
    equal: &[usize],
) -> Result<Reached, AllocError>
    requires fits { Fits store.now.signature (terms (shapes store.now.nodes)) justs.old }
    requires names { AreNamesOf store.now.signature (terms (shapes store.now.nodes)) symbol.now (names.now ++ map (rep_in reps.now) names.now) }
    requires equal { AreEquated justs.old names.now (map (rep_in reps.now) names.now) equal.now }
    requires some { 0 < length names.now }
    ensures renamed { IfOk result (λ r. r.names ≡ rising (map (rep_in reps.now) names.now)) }
    ensures rises { IfOk result (λ r. IsNonDecreasing r.names) }
    ensures states { IfOk result (λ r. StatesMany justs.new r.step symbol.now names.now r.names) }
    ensures rests { IfOk result (λ r. RestsOnThese justs.old justs.new r.step equal.now) }
    ensures kept { IsFront justs.old justs.new }
    ensures fits { Fits store.now.signature (terms (shapes store.now.nodes)) justs.new }
{
    let each = representatives(alloc, reps, names)?;
    let own = List::from_vec(each);
    let side = own.as_slice();
    let spelling = spelled(alloc, side)?;
    let order = List::from_vec(spelling);
    let to = order.as_slice();
    let first = renamed(alloc, justs, store, symbol, names, side, equal)?;
    let second = reordered(alloc, justs, store, symbol, side, to)?;
    let step = chained(alloc, justs, store, symbol, names, to, first, second)?;
    Ok(Reached { names: order, step })
}

/// A multiset with representatives for its names, reduced by the rules of the symbol, and the step that equates the two.
pub fn reduced_side(
    alloc: Global,
    justs: &mut Justs,
    store: &Store,
    rules: &Rules,
    symbol: &AcSymbol,
    names: &[Name],
    reps: &[Name],
    equal: &[usize],
) -> Result<Reached, AllocError>
    requires fits { Fits store.now.signature (terms (shapes store.now.nodes)) justs.old }
    requires said { AreSaid store.now.signature (terms (shapes store.now.nodes)) justs.old (λ n. rule_at rules.now n) }
    requires names { AreNamesOf store.now.signature (terms (shapes store.now.nodes)) symbol.now (names.now ++ map (rep_in reps.now) names.now) }
    requires equal { AreEquated justs.old names.now (map (rep_in reps.now) names.now) equal.now }
    requires some { 0 < length names.now }
    ensures descends { IfOk result (λ r. DescendsBy reps.now (λ n. rule_at rules.now n) symbol.now names.now r.names) }
    ensures reduced { IfOk result (λ r. IsReduced (IsRuleOf (λ n. rule_at rules.now n) symbol.now) r.names) }
    ensures rises { IfOk result (λ r. IsNonDecreasing r.names) }
    ensures own { IfOk result (λ r. AreLeast reps.now → AreRightsOwn reps.now (λ n. rule_at rules.now n) → AreOwn (rep_in reps.now) r.names) }
    ensures some { IfOk result (λ r. 0 < length r.names) }
    ensures names { IfOk result (λ r. AreNamesOf store.now.signature (terms (shapes store.now.nodes)) symbol.now (names.now ++ r.names)) }
    ensures states { IfOk result (λ r. StatesMany justs.new r.step symbol.now names.now r.names) }
    ensures rests { IfOk result (λ r. RestsOnHeld (λ n. rule_at rules.now n) symbol.now equal.now justs.old justs.new r.step) }
    ensures kept { IsFront justs.old justs.new }
    ensures fits { Fits store.now.signature (terms (shapes store.now.nodes)) justs.new }
{
    // its clause says that each rule is well made
    let _rule = rules.rule(0);
    let own = renamed_side(alloc, justs, store, symbol, names, reps, equal)?;
    let side = own.names.as_slice();
    let reached = reduced(alloc, justs, store, rules, symbol, side)?;
    let to = reached.names.as_slice();
    let step = chained(
        alloc,
        justs,
        store,
        symbol,
        names,
        to,
        own.step,
        reached.step,
    )?;
    Ok(Reached {
        names: reached.names,
        step,
    })
}
