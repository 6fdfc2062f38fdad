//! What is left to do about the sides of rules.
ghost use Rattle.std.specs.Prelude.{◌≡◌, ℕ, ◌<◌, List, MatchBool, IfOk, IfNone, IfSome, Some};
ghost use Rattle.ae_core.specs.declared.problems.Signature.{Signature};
ghost use Rattle.ae_store.specs.declared.nodes.Node.{Node};
ghost use Rattle.ae_monoid.specs.Rules.{rule_at};
ghost use Rattle.ae_settled.specs.Swept.{AreOwn};
ghost use Rattle.ae_sweeps.specs.Given.{rep_in, entries_of};
ghost use Rattle.ae_sweeps.specs.Gaps.{IsGap};
ghost use Rattle.ae_sweeps.specs.Inner.Parts.{AreSidesSwept};

use crate::gaps::{Gap, representative};
use ae_monoid::{Kept, Rules};
use ae_num::forms::Name;
use std::alloc::AllocError;

/// Whether each name is its own representative.
#[tactic(auto, using(crate::proofs::RuleSides::own_each, crate::proofs::RuleSides::own_at))]
fn are_own(reps: &[Name], names: &[Name]) -> bool
    ensures { MatchBool result (AreOwn (rep_in reps.now) names.now) (AreOwn (rep_in reps.now) names.now → ⊥) }
{
    for i in 0..names.len() {
        if representative(reps, names[i]) != names[i] {
            return false;
        }
    }
    true
}

/// Whether each name of both sides is.
fn are_both_own(reps: &[Name], left: &[Name], right: &[Name]) -> bool
    ensures { MatchBool result (AreOwn (rep_in reps.now) left.now × AreOwn (rep_in reps.now) right.now) (AreOwn (rep_in reps.now) left.now → AreOwn (rep_in reps.now) right.now → ⊥) }
{
    are_own(reps, left) && are_own(reps, right)
}

/// What is left to do about the sides of a rule that stands.
fn side_gap(
    rules: &Rules,
    reps: &[Name],
    number: usize,
    rule: &Kept,
) -> Result<Option<Gap>, AllocError>
    requires there { rule_at rules.now number ≡ Some rule.now }
    ensures none { IfOk result (λ gap. IfNone gap (AreSidesSwept (rep_in reps.now) (entries_of rules.now) number)) }
    ensures some { (sig : Signature) (nodes : List Node) → IfOk result (λ gap. IfSome gap (λ g. IsGap sig nodes (rep_in reps.now) (entries_of rules.now) g)) }
{
    let right = rule.entry.right.as_slice();
    if !are_both_own(reps, rule.entry.left.as_slice(), right) {
        return Ok(Some(Gap::Stale(number)));
    }
    let reduced = rules.reduce(&rule.entry.symbol, right)?;
    if !reduced.justs.is_empty() {
        return Ok(Some(Gap::Uncomposed(number)));
    }
    Ok(None)
}

/// What is left to do about the sides of the rule of a number.
fn sides_at(rules: &Rules, reps: &[Name], number: usize) -> Result<Option<Gap>, AllocError>
    ensures none { IfOk result (λ gap. IfNone gap (AreSidesSwept (rep_in reps.now) (entries_of rules.now) number)) }
    ensures some { (sig : Signature) (nodes : List Node) → IfOk result (λ gap. IfSome gap (λ g. IsGap sig nodes (rep_in reps.now) (entries_of rules.now) g)) }
{
    match rules.rule(number) {
        Some(rule) => side_gap(rules, reps, number, rule),
        None => Ok(None),
    }
}

/// What is left to do about the sides of rules, of the first rule about which anything is.
pub(crate) fn first_side(rules: &Rules, reps: &[Name]) -> Result<Option<Gap>, AllocError>
    ensures none { IfOk result (λ gap. IfNone gap ((n : ℕ) → n < rules.now.next → AreSidesSwept (rep_in reps.now) (entries_of rules.now) n)) }
    ensures some { (sig : Signature) (nodes : List Node) → IfOk result (λ gap. IfSome gap (λ g. IsGap sig nodes (rep_in reps.now) (entries_of rules.now) g)) }
{
    for number in 0..rules.len() {
        if let Some(gap) = sides_at(rules, reps, number)? {
            return Ok(Some(gap));
        }
    }
    Ok(None)
}
