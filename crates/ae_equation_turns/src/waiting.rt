//! An equation that waits, with its sides reduced.
ghost use Rattle.std.specs.Prelude.{◌≡◌, ◌<◌, ◌++◌, ◌∷◌, [], length, map, IfOk};
ghost use Rattle.std.specs.List.Sorted.{IsNonDecreasing};
ghost use Rattle.ae_multiset.specs.Rewriting.{IsReduced};
ghost use Rattle.ae_settled.specs.Swept.{AreOwn};
ghost use Rattle.ae_store.specs.Growing.{IsFront};
ghost use Rattle.ae_store.specs.Shapes.{shapes};
ghost use Rattle.ae_store.specs.Terms.{terms};
ghost use Rattle.ae_just.specs.Steps.{Fits};
ghost use Rattle.ae_state_steps.specs.ManySteps.{StatesMany};
ghost use Rattle.ae_multiset_steps.specs.Equating.{RestsOnThese, AreNamesOf, AreEquated};
ghost use Rattle.ae_monoid.specs.Rules.{rule_at, IsRuleOf};
ghost use Rattle.ae_rule_steps.specs.Said.{AreSaid};
ghost use Rattle.ae_sweeps.specs.Given.{rep_in};
ghost use Rattle.ae_equation_turns.specs.Said.{IsWaitingSaid, RestsOnHeld};
ghost use Rattle.ae_equation_turns.specs.Turned.{DescendsBy, AreRightsOwn, AreLeast};

use crate::sides::reduced_side;
use ae_core::lists::List;
use ae_equations::Waiting;
use ae_just::justs::Justs;
use ae_monoid::Rules;
use ae_multiset_steps::{chained, turned};
use ae_num::forms::Name;
use ae_rule_steps::Reached;
use ae_store::store::Store;
use std::alloc::{AllocError, Global};

/// The two sides of an equation, reduced and in rising order, and the number of the step that equates them.
#[derive(Drop)]
pub struct ReducedEquation {
    pub left: List<Name>,
    pub right: List<Name>,
    pub step: usize,
}

/// Adds the steps that two multisets are equal which the sides of an equation are equal to.
fn restated(
    alloc: Global,
    justs: &mut Justs,
    store: &Store,
    waiting: &Waiting,
    left: &Reached,
    right: &Reached,
) -> Result<usize, AllocError>
    requires fits { Fits store.now.signature (terms (shapes store.now.nodes)) justs.old }
    requires states { StatesMany justs.old waiting.now.step waiting.now.symbol waiting.now.left waiting.now.right }
    requires left { StatesMany justs.old left.now.step waiting.now.symbol waiting.now.left left.now.names }
    requires right { StatesMany justs.old right.now.step waiting.now.symbol waiting.now.right right.now.names }
    ensures states { IfOk result (λ id. StatesMany justs.new id waiting.now.symbol left.now.names right.now.names) }
    ensures rests { IfOk result (λ id. RestsOnThese justs.old justs.new id (left.now.step ∷ waiting.now.step ∷ right.now.step ∷ [])) }
    ensures kept { IsFront justs.old justs.new }
    ensures fits { Fits store.now.signature (terms (shapes store.now.nodes)) justs.new }
{
    let symbol = &waiting.symbol;
    let from = left.names.as_slice();
    let to = right.names.as_slice();
    let before = waiting.left.as_slice();
    let after = waiting.right.as_slice();
    let back = turned(alloc, justs, store, symbol, from, before, left.step)?;
    let across = chained(alloc, justs, store, symbol, from, after, back, waiting.step)?;
    chained(alloc, justs, store, symbol, from, to, across, right.step)
}

/// What an equation that waits is reduced to, by representatives and the rules of its symbol. Each name of a side comes
/// with the number of a step that equates it with its representative.
pub fn reduced_equation(
    alloc: Global,
    justs: &mut Justs,
    store: &Store,
    rules: &Rules,
    waiting: &Waiting,
    reps: &[Name],
    left_equal: &[usize],
    right_equal: &[usize],
) -> Result<ReducedEquation, AllocError>
    requires fits { Fits store.now.signature (terms (shapes store.now.nodes)) justs.old }
    requires said { AreSaid store.now.signature (terms (shapes store.now.nodes)) justs.old (λ n. rule_at rules.now n) }
    requires waiting { IsWaitingSaid store.now.signature (terms (shapes store.now.nodes)) justs.old waiting.now }
    requires left_names { AreNamesOf store.now.signature (terms (shapes store.now.nodes)) waiting.now.symbol (waiting.now.left ++ map (rep_in reps.now) waiting.now.left) }
    requires right_names { AreNamesOf store.now.signature (terms (shapes store.now.nodes)) waiting.now.symbol (waiting.now.right ++ map (rep_in reps.now) waiting.now.right) }
    requires left_equal { AreEquated justs.old waiting.now.left (map (rep_in reps.now) waiting.now.left) left_equal.now }
    requires right_equal { AreEquated justs.old waiting.now.right (map (rep_in reps.now) waiting.now.right) right_equal.now }
    ensures left_descends { IfOk result (λ e. DescendsBy reps.now (λ n. rule_at rules.now n) waiting.now.symbol waiting.now.left e.left) }
    ensures right_descends { IfOk result (λ e. DescendsBy reps.now (λ n. rule_at rules.now n) waiting.now.symbol waiting.now.right e.right) }
    ensures left_reduced { IfOk result (λ e. IsReduced (IsRuleOf (λ n. rule_at rules.now n) waiting.now.symbol) e.left) }
    ensures right_reduced { IfOk result (λ e. IsReduced (IsRuleOf (λ n. rule_at rules.now n) waiting.now.symbol) e.right) }
    ensures left_rises { IfOk result (λ e. IsNonDecreasing e.left) }
    ensures right_rises { IfOk result (λ e. IsNonDecreasing e.right) }
    ensures left_own { IfOk result (λ e. AreLeast reps.now → AreRightsOwn reps.now (λ n. rule_at rules.now n) → AreOwn (rep_in reps.now) e.left) }
    ensures right_own { IfOk result (λ e. AreLeast reps.now → AreRightsOwn reps.now (λ n. rule_at rules.now n) → AreOwn (rep_in reps.now) e.right) }
    ensures left_some { IfOk result (λ e. 0 < length e.left) }
    ensures right_some { IfOk result (λ e. 0 < length e.right) }
    ensures names { IfOk result (λ e. AreNamesOf store.now.signature (terms (shapes store.now.nodes)) waiting.now.symbol (e.left ++ e.right)) }
    ensures states { IfOk result (λ e. StatesMany justs.new e.step waiting.now.symbol e.left e.right) }
    ensures rests { IfOk result (λ e. RestsOnHeld (λ n. rule_at rules.now n) waiting.now.symbol (waiting.now.step ∷ left_equal.now ++ right_equal.now) justs.old justs.new e.step) }
    ensures kept { IsFront justs.old justs.new }
    ensures fits { Fits store.now.signature (terms (shapes store.now.nodes)) justs.new }
{
    let symbol = &waiting.symbol;
    let left_side = waiting.left.as_slice();
    let left = reduced_side(
        alloc, justs, store, rules, symbol, left_side, reps, left_equal,
    )?;
    let right_side = waiting.right.as_slice();
    let right = reduced_side(
        alloc,
        justs,
        store,
        rules,
        symbol,
        right_side,
        reps,
        right_equal,
    )?;
    let step = restated(alloc, justs, store, waiting, &left, &right)?;
    Ok(ReducedEquation {
        left: left.names,
        right: right.names,
        step,
    })
}
