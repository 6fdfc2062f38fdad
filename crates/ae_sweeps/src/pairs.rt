//! What is left to do about pairs of rules.
ghost use Rattle.std.specs.Prelude.{◌≡◌, ℕ, ◌<◌, ◌⊎◌, List, MatchBool, IfOk, IfNone, IfSome, Some};
ghost use Rattle.ae_core.specs.declared.problems.Signature.{Signature};
ghost use Rattle.ae_store.specs.declared.nodes.Node.{Node};
ghost use Rattle.ae_multiset.specs.Multisets.{IsPart};
ghost use Rattle.ae_monoid.specs.Rules.{rule_at, IsWellKept};
ghost use Rattle.ae_monoid.specs.Equations.{IsDeduced};
ghost use Rattle.ae_sweeps.specs.Given.{entries_of};
ghost use Rattle.ae_sweeps.specs.Gaps.{IsGap};
ghost use Rattle.ae_sweeps.specs.Inner.Parts.{IsPairSwept};

use crate::gaps::{Gap, same_names};
use ae_monoid::{Kept, PendingPair, Rules};
use ae_multiset::part_of;
use std::alloc::AllocError;

/// Whether the left side of one of two rules is a part of that of the other.
fn collapse(first: &Kept, second: &Kept) -> bool
    requires first { IsWellKept first.now }
    requires second { IsWellKept second.now }
    ensures { MatchBool result (IsPart first.now.entry.left second.now.entry.left ⊎ IsPart second.now.entry.left first.now.entry.left)
        (IsPart first.now.entry.left second.now.entry.left ⊎ IsPart second.now.entry.left first.now.entry.left → ⊥) }
{
    let left = first.entry.left.as_slice();
    let other = second.entry.left.as_slice();
    part_of(left, other) || part_of(other, left)
}

/// What is left to do about two rules of one symbol that stand, the left side of neither a part of that of the other, and their overlap.
fn overlap_gap(
    rules: &Rules,
    first: usize,
    second: usize,
    one: &Kept,
    other: &Kept,
    pair: &PendingPair,
) -> Result<Option<Gap>, AllocError>
    requires before { first < second }
    requires one { rule_at rules.now first ≡ Some one.now }
    requires other { rule_at rules.now second ≡ Some other.now }
    requires symbols { one.now.entry.symbol ≡ other.now.entry.symbol }
    requires apart { IsPart one.now.entry.left other.now.entry.left ⊎ IsPart other.now.entry.left one.now.entry.left → ⊥ }
    requires deduced { IsDeduced one.now other.now pair.now }
    ensures none { IfOk result (λ gap. IfNone gap (IsPairSwept (entries_of rules.now) first second)) }
    ensures some { (sig : Signature) (nodes : List Node) (rep : ℕ → ℕ) → IfOk result (λ gap. IfSome gap (λ g. IsGap sig nodes rep (entries_of rules.now) g)) }
{
    let left = rules.reduce(&pair.symbol, pair.left.as_slice())?;
    let right = rules.reduce(&pair.symbol, pair.right.as_slice())?;
    if !same_names(left.names.as_slice(), right.names.as_slice()) {
        return Ok(Some(Gap::Pair {
            first,
            second,
            left,
            right,
        }));
    }
    Ok(None)
}

/// What is left to do about two rules of one symbol that stand, and their overlap.
fn both_gap(
    rules: &Rules,
    first: usize,
    second: usize,
    one: &Kept,
    other: &Kept,
    pair: &PendingPair,
) -> Result<Option<Gap>, AllocError>
    requires before { first < second }
    requires one { rule_at rules.now first ≡ Some one.now }
    requires other { rule_at rules.now second ≡ Some other.now }
    requires one_well { IsWellKept one.now }
    requires other_well { IsWellKept other.now }
    requires symbols { one.now.entry.symbol ≡ other.now.entry.symbol }
    requires deduced { IsDeduced one.now other.now pair.now }
    ensures none { IfOk result (λ gap. IfNone gap (IsPairSwept (entries_of rules.now) first second)) }
    ensures some { (sig : Signature) (nodes : List Node) (rep : ℕ → ℕ) → IfOk result (λ gap. IfSome gap (λ g. IsGap sig nodes rep (entries_of rules.now) g)) }
{
    if collapse(one, other) {
        return Ok(Some(Gap::Collapsible { first, second }));
    }
    overlap_gap(rules, first, second, one, other, pair)
}

/// What is left to do about the rules of two numbers.
fn pair_gap(rules: &Rules, first: usize, second: usize) -> Result<Option<Gap>, AllocError>
    requires before { first < second }
    ensures none { IfOk result (λ gap. IfNone gap (IsPairSwept (entries_of rules.now) first second)) }
    ensures some { (sig : Signature) (nodes : List Node) (rep : ℕ → ℕ) → IfOk result (λ gap. IfSome gap (λ g. IsGap sig nodes rep (entries_of rules.now) g)) }
{
    let Some(one) = rules.rule(first) else {
        return Ok(None);
    };
    let Some(other) = rules.rule(second) else {
        return Ok(None);
    };
    match rules.overlaps(first, second)? {
        Some(pair) => both_gap(rules, first, second, one, other, &pair),
        None => Ok(None),
    }
}

/// The same of a rule and the first rule of a smaller number about which anything is left to do.
fn first_partner(rules: &Rules, second: usize) -> Result<Option<Gap>, AllocError>
    ensures none { IfOk result (λ gap. IfNone gap ((m : ℕ) → m < second → IsPairSwept (entries_of rules.now) m second)) }
    ensures some { (sig : Signature) (nodes : List Node) (rep : ℕ → ℕ) → IfOk result (λ gap. IfSome gap (λ g. IsGap sig nodes rep (entries_of rules.now) g)) }
{
    for first in 0..second {
        if let Some(gap) = pair_gap(rules, first, second)? {
            return Ok(Some(gap));
        }
    }
    Ok(None)
}

/// What is left to do about pairs of rules, of the first pair about which anything is.
pub(crate) fn first_pair(rules: &Rules) -> Result<Option<Gap>, AllocError>
    ensures none { IfOk result (λ gap. IfNone gap ((m n : ℕ) → m < n → n < rules.now.next → IsPairSwept (entries_of rules.now) m n)) }
    ensures some { (sig : Signature) (nodes : List Node) (rep : ℕ → ℕ) → IfOk result (λ gap. IfSome gap (λ g. IsGap sig nodes rep (entries_of rules.now) g)) }
{
    for second in 0..rules.len() {
        if let Some(gap) = first_partner(rules, second)? {
            return Ok(Some(gap));
        }
    }
    Ok(None)
}
