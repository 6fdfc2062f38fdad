//! The right sides of rules.
ghost use Rattle.std.specs.Prelude.{◌≡◌, ◌≢◌, ℕ, List, Some, OnOk};
ghost use Rattle.ae_journal.specs.Noted.{Noted};
ghost use Rattle.ae_journal.specs.declared.lines.Line.{Line as LineView};
ghost use Rattle.ae_multiset.specs.Rewriting.{IsReduced};
ghost use Rattle.ae_settled.specs.Swept.{AreOwn};
ghost use Rattle.ae_monoid.specs.declared.rules.Kept.{Kept};
ghost use Rattle.ae_monoid.specs.Rules.{rule_at, IsRuleOf};
ghost use Rattle.ae_sweeps.specs.Given.{rep_in};
ghost use Rattle.ae_equation_turns.specs.Turned.{AreRightsOwn};
ghost use Rattle.ae_state.specs.Stepping.{IsInStep};
ghost use Rattle.ae_turns.specs.Leading.{Leads};
ghost use Rattle.ae_turns.specs.Representing.{IsTaken, AreRepresentatives};
ghost use Rattle.ae_turns.specs.Ending.{HaveSameLefts};
ghost use Rattle.ae_turns.specs.Cleared.{AreCleared, AreComposed};
ghost use Rattle.ae_right_sides.specs.Inner.OtherRights.{HasOtherRights};

use ae_entering::laws::entries_of_all_names_fit;
use ae_equation_turns::{reduce_right, rename_right};
use ae_name_lines::laws::least_names_represent;
use ae_num::forms::Name;
use ae_representatives::equal_to_representatives;
use ae_state::Holding;
use ae_store::store::Store;
use std::alloc::{AllocError, Global};

/// Puts representatives for the names of the right side of a rule; where no rule of this number stands, nothing changes. A refusal leaves the rules as
/// before.
fn rename_one(
    alloc: Global,
    held: &mut Holding,
    store: &Store,
    reps: &[Name],
    number: usize,
) -> Result<(), AllocError>
    requires taken { IsTaken held.old store.now }
    requires reps { AreRepresentatives held.old reps.now }
    ensures rights { HasOtherRights store.now held.old held.new }
    ensures own { OnOk result ((rule : Kept) → rule_at held.new.equations.rules number ≡ Some rule → AreOwn (rep_in reps.now) rule.entry.right) }
    ensures others { (n : ℕ) → n ≢ number → rule_at held.new.equations.rules n ≡ rule_at held.old.equations.rules n }
{
    entries_of_all_names_fit();
    least_names_represent();
    let rules = held.equations.rules();
    let Some(rule) = rules.rule(number) else {
        return Ok(());
    };
    let right = rule.entry.right.as_slice();
    let equal = equal_to_representatives(alloc, &held.values, &mut held.justs, store, right, reps)?;
    let steps = equal.as_slice();
    rename_right(
        alloc,
        &mut held.equations,
        &mut held.justs,
        store,
        number,
        reps,
        steps,
    )?;
    Ok(())
}

/// Puts representatives for the names of all right sides.
fn rename_all(
    alloc: Global,
    held: &mut Holding,
    store: &Store,
    reps: &[Name],
) -> Result<(), AllocError>
    requires taken { IsTaken held.old store.now }
    requires reps { AreRepresentatives held.old reps.now }
    ensures rights { HasOtherRights store.now held.old held.new }
    ensures own { OnOk result (AreRightsOwn reps.now (λ n. rule_at held.new.equations.rules n)) }
{
    let rules = held.equations.rules();
    // each rule has a number that was given
    let _rule = rules.rule(0);
    let count = rules.len();
    for number in 0..count {
        rename_one(alloc, held, store, reps, number)?;
    }
    Ok(())
}

/// Reduces the right side of a rule by the rules of its symbol; where no rule of this number stands, nothing changes. A refusal leaves the rules as
/// before.
fn reduce_one(
    alloc: Global,
    held: &mut Holding,
    store: &Store,
    number: usize,
) -> Result<(), AllocError>
    requires taken { IsTaken held.old store.now }
    ensures rights { HasOtherRights store.now held.old held.new }
    ensures own { (reps : List ℕ) → AreRightsOwn reps (λ n. rule_at held.old.equations.rules n) → AreRightsOwn reps (λ n. rule_at held.new.equations.rules n) }
    ensures reduced { OnOk result ((rule : Kept) → rule_at held.new.equations.rules number ≡ Some rule → IsReduced (IsRuleOf (λ n. rule_at held.new.equations.rules n) rule.entry.symbol) rule.entry.right) }
    ensures others { (n : ℕ) → n ≢ number → rule_at held.new.equations.rules n ≡ rule_at held.old.equations.rules n }
{
    let rules = held.equations.rules();
    let Some(_rule) = rules.rule(number) else {
        return Ok(());
    };
    reduce_right(alloc, &mut held.equations, &mut held.justs, store, number)?;
    Ok(())
}

/// Reduces all right sides by the rules of their symbols.
fn reduce_all(alloc: Global, held: &mut Holding, store: &Store) -> Result<(), AllocError>
    requires taken { IsTaken held.old store.now }
    ensures rights { HasOtherRights store.now held.old held.new }
    ensures own { (reps : List ℕ) → AreRightsOwn reps (λ n. rule_at held.old.equations.rules n) → AreRightsOwn reps (λ n. rule_at held.new.equations.rules n) }
    ensures reduced { OnOk result ((n : ℕ) (rule : Kept) → rule_at held.new.equations.rules n ≡ Some rule → IsReduced (IsRuleOf (λ m. rule_at held.new.equations.rules m) rule.entry.symbol) rule.entry.right) }
{
    let rules = held.equations.rules();
    // each rule has a number that was given
    let _rule = rules.rule(0);
    let count = rules.len();
    for number in 0..count {
        reduce_one(alloc, held, store, number)?;
    }
    Ok(())
}

/// Puts representatives for the names of all right sides, and then reduces these by the rules of their symbols. No line says so. A refusal leaves what
/// is held right.
pub fn compose_rights(
    alloc: Global,
    held: &mut Holding,
    store: &Store,
    reps: &[Name],
) -> Result<(), AllocError>
    requires taken { IsTaken held.old store.now }
    requires reps { AreRepresentatives held.old reps.now }
    requires cleared { AreCleared reps.now (λ n. rule_at held.old.equations.rules n) }
    ensures leads { (j : Noted) → Leads store.now held.old j held.new j }
    ensures step { OnOk result ((js : List LineView) → IsInStep held.old js → IsInStep held.new js) }
    ensures composed { OnOk result (AreComposed reps.now (λ n. rule_at held.new.equations.rules n)) }
    ensures lefts { HaveSameLefts (λ n. rule_at held.old.equations.rules n) (λ n. rule_at held.new.equations.rules n) }
    ensures pairs { held.new.equations.pairs ≡ held.old.equations.pairs }
    ensures queue { held.new.equations.queue ≡ held.old.equations.queue }
    ensures others { held.new ≡ record held.old { equations = held.new.equations; justs = held.new.justs } }
{
    rename_all(alloc, held, store, reps)?;
    reduce_all(alloc, held, store)?;
    Ok(())
}
