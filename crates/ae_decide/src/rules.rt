//! The rules of a system: whether their sides are multisets of representatives, and the left one is the larger.
ghost use Rattle.std.specs.Prelude.{◌≡◌, ◌↔◌, ◌&&◌, true, Some, IfOk};
ghost use Rattle.std.specs.List.{list_all};
ghost use Rattle.ae_core.specs.declared.terms.Head.TheVariants as head;
ghost use Rattle.ae_journal.specs.Systems.{ac_sort};
ghost use Rattle.ae_decide.specs.Clauses.{HasTerms, HasLeaves, RulesFit};
ghost use Rattle.ae_decide.specs.Rules as spec;

use crate::leaves::is_of_sort;
use crate::values::is_value;
use ae_core::problems::{Nature, Signature};
use ae_core::putting::put_sort;
use ae_core::terms::{Head, Op, Sort};
use ae_journal::systems::{RuleEntry, System};
use ae_multiset::{compare, spelled};
use ae_num::forms::{Name, Value};
use std::alloc::{AllocError, Global};
use std::cmp::Ordering;

/// Whether a symbol is AC.
pub fn is_ac(signature: &Signature, head: Head) -> bool
    ensures { result ≡ spec.is_ac signature.now head }
{
    match head {
        Head::Symbol(symbol) => match signature.symbols.get(symbol) {
            None => false,
            Some(entry) => match entry.nature {
                Nature::Ac => true,
                Nature::Free => false,
                Nature::Choice { .. } => false,
            },
        },
        Head::Int(op) => op == Op::Mul,
        Head::Real(op) => op == Op::Mul,
        _ => false,
    }
}

/// The sort that a declared symbol joins.
fn symbol_sort(
    alloc: Global,
    signature: &Signature,
    symbol: usize,
    sorts: &[Sort],
) -> Result<Option<Sort>, AllocError>
    ensures { IfOk result (λ o. o ≡ ac_sort signature.now (head.Symbol symbol) sorts.now) }
{
    match signature.symbols.get(symbol) {
        None => Ok(None),
        Some(entry) => match &entry.result {
            None => Ok(None),
            Some(sort) => Ok(Some(put_sort(alloc, sort, sorts)?)),
        },
    }
}

/// The sort that an AC symbol joins.
fn joined_sort(
    alloc: Global,
    signature: &Signature,
    head: Head,
    sorts: &[Sort],
) -> Result<Option<Sort>, AllocError>
    ensures { IfOk result (λ o. o ≡ ac_sort signature.now head sorts.now) }
{
    match head {
        Head::Symbol(symbol) => symbol_sort(alloc, signature, symbol, sorts),
        Head::Int(Op::Mul) => Ok(Some(Sort::Int)),
        Head::Real(Op::Mul) => Ok(Some(Sort::Real)),
        _ => Ok(None),
    }
}

/// Whether a name is of this sort and has this value.
pub fn has(
    alloc: Global,
    signature: &Signature,
    system: &System,
    sort: &Sort,
    value: &Value,
    name: Name,
) -> Result<bool, AllocError>
    ensures { IfOk result (λ b. b ≡ spec.has signature.now system.now sort.now (Some value.now) name) }
{
    let Some(term) = system.names.get(name) else {
        return Ok(false);
    };
    let Some(own) = system.values.get(name) else {
        return Ok(false);
    };
    if !is_of_sort(alloc, signature, term, sort)? {
        return Ok(false);
    }
    Ok(is_value(own, value))
}

/// Whether no smaller name is of this sort and has this value.
#[tactic(auto, using(crate::proofs::RuleTests::one_below))]
fn none_below(
    alloc: Global,
    signature: &Signature,
    system: &System,
    sort: &Sort,
    value: &Value,
    name: Name,
) -> Result<bool, AllocError>
    ensures { IfOk result (λ b. b ≡ spec.none_below signature.now system.now sort.now (Some value.now) name) }
{
    for other in 0..name {
        if has(alloc, signature, system, sort, value, other)? {
            return Ok(false);
        }
    }
    Ok(true)
}

/// Whether a name is the least of this sort that has its value.
fn is_representative(
    alloc: Global,
    signature: &Signature,
    system: &System,
    sort: &Sort,
    name: Name,
) -> Result<bool, AllocError>
    ensures { IfOk result (λ b. b ≡ spec.is_representative signature.now system.now sort.now name) }
{
    let Some(value) = system.values.get(name) else {
        return Ok(false);
    };
    if !has(alloc, signature, system, sort, value, name)? {
        return Ok(false);
    }
    none_below(alloc, signature, system, sort, value, name)
}

/// Whether each of some names is.
fn are_representatives(
    alloc: Global,
    signature: &Signature,
    system: &System,
    sort: &Sort,
    names: &[Name],
) -> Result<bool, AllocError>
    ensures { IfOk result (λ b. b ≡ list_all (spec.is_representative signature.now system.now sort.now) names.now) }
{
    for name in names {
        if !is_representative(alloc, signature, system, sort, *name)? {
            return Ok(false);
        }
    }
    Ok(true)
}

/// Whether a multiset is smaller than another, each written in any order.
#[tactic(auto, using(crate::proofs::RuleTests::less_yes, crate::proofs::RuleTests::less_same_no, crate::proofs::RuleTests::less_no))]
fn is_less(alloc: Global, small: &[Name], large: &[Name]) -> Result<bool, AllocError>
    ensures { IfOk result (λ b. b ≡ spec.is_less small.now large.now) }
{
    let small = spelled(alloc, small)?;
    let large = spelled(alloc, large)?;
    match compare(small.as_slice(), large.as_slice()) {
        Ordering::Less => Ok(true),
        Ordering::Equal => Ok(false),
        Ordering::Greater => Ok(false),
    }
}

/// Whether the sides of a rule are multisets of representatives of this sort.
fn has_sides(
    alloc: Global,
    signature: &Signature,
    system: &System,
    sort: &Sort,
    rule: &RuleEntry,
) -> Result<bool, AllocError>
    ensures { IfOk result (λ b. b ≡ (list_all (spec.is_representative signature.now system.now sort.now) rule.now.left && list_all (spec.is_representative signature.now system.now sort.now) rule.now.right)) }
{
    if !are_representatives(alloc, signature, system, sort, rule.left.as_slice())? {
        return Ok(false);
    }
    are_representatives(alloc, signature, system, sort, rule.right.as_slice())
}

/// Whether a rule fits: its symbol is AC, its sides are multisets of representatives, the left one of two or more, the right one of one or
/// more and smaller.
fn rule_fits(
    alloc: Global,
    signature: &Signature,
    system: &System,
    rule: &RuleEntry,
) -> Result<bool, AllocError>
    ensures { IfOk result (λ b. b ≡ spec.rule_fits signature.now system.now rule.now) }
{
    let Some(sort) = joined_sort(
        alloc,
        signature,
        rule.symbol.head,
        rule.symbol.sorts.as_slice(),
    )?
    else {
        return Ok(false);
    };
    if !is_ac(signature, rule.symbol.head) {
        return Ok(false);
    }
    if !has_sides(alloc, signature, system, &sort, rule)? {
        return Ok(false);
    }
    if rule.right.len() < 1 || rule.left.len() < 2 {
        return Ok(false);
    }
    is_less(alloc, rule.right.as_slice(), rule.left.as_slice())
}

/// Whether each rule fits.
fn all_fit(alloc: Global, signature: &Signature, system: &System) -> Result<bool, AllocError>
    ensures { IfOk result (λ b. b ≡ list_all (spec.rule_fits signature.now system.now) system.now.rules) }
{
    let rules = system.rules.as_slice();
    for rule in rules {
        if !rule_fits(alloc, signature, system, rule)? {
            return Ok(false);
        }
    }
    Ok(true)
}

/// Whether the sides of each rule are multisets of representatives, the left one of two or more and the larger: the sixth clause of a
/// completed system.
pub fn rules_fit(alloc: Global, signature: &Signature, system: &System) -> Result<bool, AllocError>
    requires terms { HasTerms signature.now system.now }
    requires leaves { HasLeaves signature.now system.now }
    ensures { IfOk result (λ b. (b ≡ true) ↔ RulesFit signature.now system.now) }
{
    all_fit(alloc, signature, system)
}
