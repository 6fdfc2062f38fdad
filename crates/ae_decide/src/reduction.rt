//! The rules of a system: whether no rule reduces a side of another, or a right side.
ghost use Rattle.std.specs.Prelude.{◌≡◌, ◌↔◌, ◌+◌, not, ◌&&◌, true, IfOk};
ghost use Rattle.std.specs.List.{list_all};
ghost use Rattle.ae_core.specs.declared.problems.Signature.{Signature as SignatureOf};
ghost use Rattle.ae_decide.specs.Clauses.{AreReduced};
ghost use Rattle.ae_decide.specs.Reduction as spec;

use crate::names::is_head;
use ae_core::problems::AcSymbol;
use ae_core::sorts::are_sorts;
use ae_journal::systems::{RuleEntry, System};
use ae_multiset::{part_of, spelled};
use std::alloc::{AllocError, Global};

/// Whether two AC symbols are the same.
pub fn is_symbol(left: &AcSymbol, right: &AcSymbol) -> bool
    ensures { result ≡ spec.same_symbol left.now right.now }
{
    is_head(left.head, right.head) && are_sorts(left.sorts.as_slice(), right.sorts.as_slice())
}

/// Whether a multiset is a part of another, each written in any order.
#[tactic(auto, using(crate::proofs::ReductionTests::part_decided))]
fn is_part(alloc: Global, small: &[usize], large: &[usize]) -> Result<bool, AllocError>
    ensures { IfOk result (λ b. b ≡ spec.is_part small.now large.now) }
{
    let small = spelled(alloc, small)?;
    let large = spelled(alloc, large)?;
    Ok(part_of(small.as_slice(), large.as_slice()))
}

/// Whether a rule reduces a multiset that a symbol joins.
pub fn reduces(
    alloc: Global,
    rule: &RuleEntry,
    symbol: &AcSymbol,
    side: &[usize],
) -> Result<bool, AllocError>
    ensures { IfOk result (λ b. b ≡ spec.reduces rule.now symbol.now side.now) }
{
    if !is_symbol(&rule.symbol, symbol) {
        return Ok(false);
    }
    is_part(alloc, rule.left.as_slice(), side)
}

/// Whether neither of two rules reduces the left side of the other.
fn are_irreducible(alloc: Global, first: &RuleEntry, second: &RuleEntry) -> Result<bool, AllocError>
    ensures { IfOk result (λ b. b ≡ spec.are_irreducible first.now second.now) }
{
    if reduces(alloc, first, &second.symbol, second.left.as_slice())? {
        return Ok(false);
    }
    Ok(!reduces(alloc, second, &first.symbol, first.left.as_slice())?)
}

/// Whether a rule and each of some others don't reduce each other's left sides.
fn leaves_others(alloc: Global, rule: &RuleEntry, others: &[RuleEntry]) -> Result<bool, AllocError>
    ensures { IfOk result (λ b. b ≡ list_all (spec.are_irreducible rule.now) others.now) }
{
    for other in others {
        if !are_irreducible(alloc, rule, other)? {
            return Ok(false);
        }
    }
    Ok(true)
}

/// Whether no rule reduces the left side of another.
#[tactic(auto, using(crate::proofs::ReductionTests::left_step))]
fn left_sides_stay(alloc: Global, rules: &[RuleEntry]) -> Result<bool, AllocError>
    ensures { IfOk result (λ b. b ≡ spec.left_sides_stay rules.now) }
{
    for i in 0..rules.len() {
        if !leaves_others(alloc, &rules[i], &rules[i + 1..])? {
            return Ok(false);
        }
    }
    Ok(true)
}

/// Whether a rule reduces none of the right sides.
fn leaves_right_sides(
    alloc: Global,
    rule: &RuleEntry,
    rules: &[RuleEntry],
) -> Result<bool, AllocError>
    ensures { IfOk result (λ b. b ≡ list_all (spec.leaves_right rule.now) rules.now) }
{
    for other in rules {
        if reduces(alloc, rule, &other.symbol, other.right.as_slice())? {
            return Ok(false);
        }
    }
    Ok(true)
}

/// Whether no rule reduces a right side.
fn right_sides_stay(alloc: Global, rules: &[RuleEntry]) -> Result<bool, AllocError>
    ensures { IfOk result (λ b. b ≡ list_all (λ d. list_all (spec.leaves_right d) rules.now) rules.now) }
{
    for rule in rules {
        if !leaves_right_sides(alloc, rule, rules)? {
            return Ok(false);
        }
    }
    Ok(true)
}

/// Whether no rule of a system reduces a side of another rule or a right side: the seventh clause of a completed system. Quadratic in the
/// number of rules.
#[tactic(auto, using(crate::proofs::ReductionTests::reduced_holds, crate::proofs::ReductionTests::reduced_left, crate::proofs::ReductionTests::reduced_right))]
pub fn are_reduced(alloc: Global, system: &System) -> Result<bool, AllocError>
    ensures { IfOk result (λ b. (signature : SignatureOf) → (b ≡ true) ↔ AreReduced signature system.now) }
{
    let rules = system.rules.as_slice();
    if !left_sides_stay(alloc, rules)? {
        return Ok(false);
    }
    right_sides_stay(alloc, rules)
}
