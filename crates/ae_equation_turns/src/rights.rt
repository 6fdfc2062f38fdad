//! Other right sides for rules, with their steps.
ghost use Rattle.std.specs.Prelude.{◌≡◌, ◌++◌, ◌∷◌, ℕ, map, None, Some, IfOk, OnOk, OnErr};
ghost use Rattle.std.specs.List.Sorted.{IsNonDecreasing};
ghost use Rattle.ae_multiset.specs.Multisets.{rising};
ghost use Rattle.ae_multiset.specs.Rewriting.{IsReduced, ReducesTo};
ghost use Rattle.ae_store.specs.Growing.{IsFront};
ghost use Rattle.ae_store.specs.Shapes.{shapes};
ghost use Rattle.ae_store.specs.Terms.{terms};
ghost use Rattle.ae_just.specs.Steps.{Fits};
ghost use Rattle.ae_state_steps.specs.ManySteps.{StatesMany};
ghost use Rattle.ae_multiset_steps.specs.Equating.{RestsOnThese, AreNamesOf, AreEquated};
ghost use Rattle.ae_monoid.specs.declared.rules.Kept.{Kept};
ghost use Rattle.ae_monoid.specs.Rules.{rule_at, IsRuleOf, IsWellKept};
ghost use Rattle.ae_rule_steps.specs.Said.{IsSaid, AreSaid, RestsOnRules};
ghost use Rattle.ae_sweeps.specs.Given.{rep_in};
ghost use Rattle.ae_equations.specs.Versions.{Lasts};
ghost use Rattle.ae_equation_turns.specs.Said.{IsHeld};
ghost use Rattle.ae_equation_turns.specs.Turned.{AreLeast, IsRightRenamed, IsRightReduced};

use crate::sides::renamed_side;
use ae_equations::Equations;
use ae_just::justs::Justs;
use ae_monoid::{Kept, Rules};
use ae_multiset_steps::chained;
use ae_num::forms::Name;
use ae_rule_steps::{Reached, reduced};
use ae_store::store::Store;
use std::alloc::{AllocError, Global};

/// A rule's right side with representatives for its names, and the step that equates the left side with it.
fn right_renamed(
    alloc: Global,
    justs: &mut Justs,
    store: &Store,
    rule: &Kept,
    reps: &[Name],
    equal: &[usize],
) -> Result<Reached, AllocError>
    requires fits { Fits store.now.signature (terms (shapes store.now.nodes)) justs.old }
    requires well { IsWellKept rule.now }
    requires said { IsSaid store.now.signature (terms (shapes store.now.nodes)) justs.old rule.now }
    requires names { AreNamesOf store.now.signature (terms (shapes store.now.nodes)) rule.now.entry.symbol (rule.now.entry.right ++ map (rep_in reps.now) rule.now.entry.right) }
    requires equal { AreEquated justs.old rule.now.entry.right (map (rep_in reps.now) rule.now.entry.right) equal.now }
    ensures renamed { IfOk result (λ r. r.names ≡ rising (map (rep_in reps.now) rule.now.entry.right)) }
    ensures states { IfOk result (λ r. StatesMany justs.new r.step rule.now.entry.symbol rule.now.entry.left r.names) }
    ensures rests { IfOk result (λ r. RestsOnThese justs.old justs.new r.step (rule.now.just ∷ equal.now)) }
    ensures kept { IsFront justs.old justs.new }
    ensures fits { Fits store.now.signature (terms (shapes store.now.nodes)) justs.new }
{
    let right = rule.entry.right.as_slice();
    let renamed = renamed_side(alloc, justs, store, &rule.entry.symbol, right, reps, equal)?;
    let left = rule.entry.left.as_slice();
    let to = renamed.names.as_slice();
    let step = chained(
        alloc,
        justs,
        store,
        &rule.entry.symbol,
        left,
        to,
        rule.just,
        renamed.step,
    )?;
    Ok(Reached {
        names: renamed.names,
        step,
    })
}

/// A rule's right side reduced by the rules of its symbol, and the step that equates the left side with it.
fn right_reduced(
    alloc: Global,
    justs: &mut Justs,
    store: &Store,
    rules: &Rules,
    number: usize,
    rule: &Kept,
) -> Result<Reached, AllocError>
    requires fits { Fits store.now.signature (terms (shapes store.now.nodes)) justs.old }
    requires well { IsWellKept rule.now }
    requires there { rule_at rules.now number ≡ Some rule.now }
    requires said { AreSaid store.now.signature (terms (shapes store.now.nodes)) justs.old (λ n. rule_at rules.now n) }
    ensures follows { IfOk result (λ r. ReducesTo (IsRuleOf (λ n. rule_at rules.now n) rule.now.entry.symbol) rule.now.entry.right r.names) }
    ensures reduced { IfOk result (λ r. IsReduced (IsRuleOf (λ n. rule_at rules.now n) rule.now.entry.symbol) r.names) }
    ensures rises { IfOk result (λ r. IsNonDecreasing r.names) }
    ensures states { IfOk result (λ r. StatesMany justs.new r.step rule.now.entry.symbol rule.now.entry.left r.names) }
    ensures rests { IfOk result (λ r. RestsOnRules (λ n. rule_at rules.now n) rule.now.entry.symbol justs.old justs.new r.step) }
    ensures kept { IsFront justs.old justs.new }
    ensures fits { Fits store.now.signature (terms (shapes store.now.nodes)) justs.new }
{
    let right = rule.entry.right.as_slice();
    let reached = reduced(alloc, justs, store, rules, &rule.entry.symbol, right)?;
    let left = rule.entry.left.as_slice();
    let to = reached.names.as_slice();
    let step = chained(
        alloc,
        justs,
        store,
        &rule.entry.symbol,
        left,
        to,
        rule.just,
        reached.step,
    )?;
    Ok(Reached {
        names: reached.names,
        step,
    })
}

/// Puts representatives for the names of a rule's right side. Each of these names comes with the number of a step that
/// equates it with its representative. A refusal leaves the rules as before; steps that were added stay.
pub fn rename_right(
    alloc: Global,
    equations: &mut Equations,
    justs: &mut Justs,
    store: &Store,
    number: usize,
    reps: &[Name],
    equal: &[usize],
) -> Result<(), AllocError>
    requires fits { Fits store.now.signature (terms (shapes store.now.nodes)) justs.old }
    requires held { IsHeld store.now.signature (terms (shapes store.now.nodes)) justs.old equations.old }
    requires stands { rule_at equations.old.rules number ≡ None → ⊥ }
    requires least { AreLeast reps.now }
    requires names { (rule : Kept) → rule_at equations.old.rules number ≡ Some rule
        → AreNamesOf store.now.signature (terms (shapes store.now.nodes)) rule.entry.symbol (rule.entry.right ++ map (rep_in reps.now) rule.entry.right) }
    requires equal { (rule : Kept) → rule_at equations.old.rules number ≡ Some rule → AreEquated justs.old rule.entry.right (map (rep_in reps.now) rule.entry.right) equal.now }
    ensures ok { OnOk result (IsRightRenamed reps.now equal.now (λ n. rule_at equations.old.rules n) (λ n. rule_at equations.new.rules n) justs.old justs.new number) }
    ensures err { OnErr result ((n : ℕ) → rule_at equations.new.rules n ≡ rule_at equations.old.rules n) }
    ensures held { IsHeld store.now.signature (terms (shapes store.now.nodes)) justs.new equations.new }
    ensures len { equations.new.rules.next ≡ equations.old.rules.next }
    ensures pairs { equations.new.pairs ≡ equations.old.pairs }
    ensures queue { equations.new.queue ≡ equations.old.queue }
    ensures lasts { Lasts equations.old equations.new }
    ensures kept { IsFront justs.old justs.new }
    ensures fits { Fits store.now.signature (terms (shapes store.now.nodes)) justs.new }
{
    let Some(rule) = equations.rules().rule(number) else {
        return Ok(());
    };
    let renamed = right_renamed(alloc, justs, store, rule, reps, equal)?;
    equations.compose(number, renamed.names.as_slice(), renamed.step)?;
    Ok(())
}

/// Reduces a rule's right side by the rules of its symbol. A refusal leaves the rules as before; steps that were added
/// stay.
pub fn reduce_right(
    alloc: Global,
    equations: &mut Equations,
    justs: &mut Justs,
    store: &Store,
    number: usize,
) -> Result<(), AllocError>
    requires fits { Fits store.now.signature (terms (shapes store.now.nodes)) justs.old }
    requires held { IsHeld store.now.signature (terms (shapes store.now.nodes)) justs.old equations.old }
    requires stands { rule_at equations.old.rules number ≡ None → ⊥ }
    ensures ok { OnOk result (IsRightReduced (λ n. rule_at equations.old.rules n) (λ n. rule_at equations.new.rules n) justs.old justs.new number) }
    ensures err { OnErr result ((n : ℕ) → rule_at equations.new.rules n ≡ rule_at equations.old.rules n) }
    ensures held { IsHeld store.now.signature (terms (shapes store.now.nodes)) justs.new equations.new }
    ensures len { equations.new.rules.next ≡ equations.old.rules.next }
    ensures pairs { equations.new.pairs ≡ equations.old.pairs }
    ensures queue { equations.new.queue ≡ equations.old.queue }
    ensures lasts { Lasts equations.old equations.new }
    ensures kept { IsFront justs.old justs.new }
    ensures fits { Fits store.now.signature (terms (shapes store.now.nodes)) justs.new }
{
    let rules = equations.rules();
    let Some(rule) = rules.rule(number) else {
        return Ok(());
    };
    let reached = right_reduced(alloc, justs, store, rules, number, rule)?;
    equations.compose(number, reached.names.as_slice(), reached.step)?;
    Ok(())
}
