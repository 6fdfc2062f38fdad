//! Worked rules over the names 0 to 4: an overlap that becomes a rule, a rule that overlaps itself, rules that are
//! taken out or get another right side, and versions.
ghost use Rattle.std.specs.Prelude.{◌≡◌, ◌<◌};
ghost use Rattle.std.specs.Bool.{OnTrue};
ghost use Rattle.std.specs.List.Sorted.{IsNonDecreasing};
ghost use Rattle.ae_multiset.specs.Multisets.{IsSame};

use ae_core::lists::List;
use ae_core::problems::AcSymbol;
use ae_core::terms::Head;
use ae_monoid::{PendingPair, Rules};
use ae_multiset::{compare, spelled};
use ae_num::forms::Name;
use ae_steps::Steps;
use std::alloc::{AllocError, Global};
use std::cmp::Ordering;
use std::marker::Brand;
use std::sync::ledger::{Blank, Ledger};
use std::test::Fail;

fn symbol(alloc: Global, head: usize) -> AcSymbol {
    AcSymbol {
        head: Head::Symbol(head),
        sorts: List::new(alloc),
    }
}

/// Whether two multisets differ.
fn are_different(one: &[Name], other: &[Name]) -> bool
    requires one { IsNonDecreasing one.now }
    requires other { IsNonDecreasing other.now }
    ensures { OnTrue result (IsSame one.now other.now → ⊥) }
{
    match compare(one, other) {
        Ordering::Less => true,
        Ordering::Equal => false,
        Ordering::Greater => true,
    }
}

/// Enters a rule where one may be entered of the two.
fn entered(
    rules: &mut Rules,
    symbol: &AcSymbol,
    one: &[Name],
    other: &[Name],
) -> Result<(), AllocError>
    requires one { IsNonDecreasing one.now }
    requires other { IsNonDecreasing other.now }
{
    if one.len() < 2 {
        return Ok(());
    }
    if other.len() < 1 {
        return Ok(());
    }
    if !are_different(one, other) {
        return Ok(());
    }
    rules.orient(symbol, one, other, 7)?;
    Ok(())
}

/// The rules of a symbol with these sides.
fn with_rules(
    alloc: Global,
    symbol: &AcSymbol,
    sides: &[(&[Name], &[Name])],
) -> Result<Rules, AllocError> {
    let mut rules = Rules::new(alloc);
    for (left, right) in sides {
        let one = spelled(alloc, left)?;
        let other = spelled(alloc, right)?;
        entered(&mut rules, symbol, &one, &other)?;
    }
    Ok(rules)
}

/// Whether a rule stands and has these sides.
fn has_rule(rules: &Rules, number: usize, left: &[Name], right: &[Name]) -> bool {
    match rules.rule(number) {
        Some(rule) => rule.entry.left.as_slice() == left && rule.entry.right.as_slice() == right,
        None => false,
    }
}

fn is_equation(pair: &PendingPair, left: &[Name], right: &[Name], justs: &[usize]) -> bool {
    pair.left.as_slice() == left && pair.right.as_slice() == right && pair.justs.as_slice() == justs
}

/// Whether this is the one equation.
fn is_only_equation(pairs: &[PendingPair], left: &[Name], right: &[Name]) -> bool {
    match pairs {
        [pair] => is_equation(pair, left, right, &[7]),
        _ => false,
    }
}

/// What two rules deduce, where both stand.
fn deduced(rules: &Rules, first: usize, second: usize) -> Result<Option<PendingPair>, AllocError> {
    if rules.rule(first).is_none() {
        return Ok(None);
    }
    if rules.rule(second).is_none() {
        return Ok(None);
    }
    rules.overlaps(first, second)
}

/// Whether two rules deduce this equation.
fn deduces(
    rules: &Rules,
    first: usize,
    second: usize,
    left: &[Name],
    right: &[Name],
) -> Result<bool, AllocError> {
    match deduced(rules, first, second)? {
        Some(pair) => Ok(is_equation(&pair, left, right, &[7, 7])),
        None => Ok(false),
    }
}

fn reduces(
    rules: &Rules,
    symbol: &AcSymbol,
    names: &[Name],
    to: &[Name],
) -> Result<bool, AllocError> {
    let reduced = rules.reduce(symbol, names)?;
    Ok(reduced.names.as_slice() == to)
}

fn is_either(names: &[Name], one: &[Name], other: &[Name]) -> bool {
    names == one || names == other
}

#[test]
fn two_rules_overlap(rt: HostRuntime) -> Result<(), Fail> {
    let alloc = rt.alloc();
    let plus = symbol(alloc, 0);
    let rules = with_rules(alloc, &plus, &[(&[1, 0], &[2]), (&[0, 3], &[4])])?;
    assert!(rt; deduces(&rules, 0, 1, &[2, 3], &[1, 4])?);
    Ok(())
}

#[test]
fn what_overlaps_reduces_to_either_side(rt: HostRuntime) -> Result<(), Fail> {
    let alloc = rt.alloc();
    let plus = symbol(alloc, 0);
    let rules = with_rules(alloc, &plus, &[(&[1, 0], &[2]), (&[0, 3], &[4])])?;
    let reduced = rules.reduce(&plus, &[0, 1, 3])?;
    assert!(rt; is_either(reduced.names.as_slice(), &[2, 3], &[1, 4]));
    Ok(())
}

/// The three rules over which each overlap joins.
fn joined(alloc: Global, symbol: &AcSymbol) -> Result<Rules, AllocError> {
    with_rules(
        alloc,
        symbol,
        &[(&[1, 0], &[2]), (&[0, 3], &[4]), (&[2, 3], &[4, 1])],
    )
}

#[test]
fn the_overlap_becomes_a_rule(rt: HostRuntime) -> Result<(), Fail> {
    let alloc = rt.alloc();
    let plus = symbol(alloc, 0);
    let rules = joined(alloc, &plus)?;
    assert!(rt; has_rule(&rules, 2, &[1, 4], &[2, 3]));
    assert!(rt; reduces(&rules, &plus, &[3, 1, 0], &[2, 3])?);
    Ok(())
}

#[test]
fn the_overlap_joins(rt: HostRuntime) -> Result<(), Fail> {
    let alloc = rt.alloc();
    let plus = symbol(alloc, 0);
    let rules = joined(alloc, &plus)?;
    assert!(rt; reduces(&rules, &plus, &[1, 4], &[2, 3])?);
    assert!(rt; reduces(&rules, &plus, &[2, 3], &[2, 3])?);
    Ok(())
}

#[test]
fn rules_of_another_symbol_are_not_used(rt: HostRuntime) -> Result<(), Fail> {
    let alloc = rt.alloc();
    let rules = joined(alloc, &symbol(alloc, 0))?;
    assert!(rt; reduces(&rules, &symbol(alloc, 1), &[3, 1, 0], &[0, 1, 3])?);
    Ok(())
}

#[test]
fn a_rule_overlaps_itself(rt: HostRuntime) -> Result<(), Fail> {
    let alloc = rt.alloc();
    let rules = with_rules(alloc, &symbol(alloc, 0), &[(&[0, 0, 1], &[2])])?;
    assert!(rt; deduces(&rules, 0, 0, &[2], &[2])?);
    Ok(())
}

/// The left side of rule 0 has that of rule 1.
fn nested(alloc: Global) -> Result<Rules, AllocError> {
    with_rules(
        alloc,
        &symbol(alloc, 0),
        &[(&[0, 1, 3], &[2]), (&[1, 3], &[4])],
    )
}

#[test]
fn a_collapse_takes_out_a_rule(rt: HostRuntime) -> Result<(), Fail> {
    let mut rules = nested(rt.alloc())?;
    let pairs = rules.collapse()?;
    assert!(rt; is_only_equation(pairs.as_slice(), &[0, 1, 3], &[2]));
    assert!(rt; rules.rule(0).is_none());
    assert!(rt; has_rule(&rules, 1, &[1, 3], &[4]));
    Ok(())
}

#[test]
fn a_release_takes_out_the_rules_of_a_name(rt: HostRuntime) -> Result<(), Fail> {
    let mut rules = nested(rt.alloc())?;
    let pairs = rules.release(0)?;
    assert!(rt; is_only_equation(pairs.as_slice(), &[0, 1, 3], &[2]));
    assert!(rt; has_rule(&rules, 1, &[1, 3], &[4]));
    Ok(())
}

/// Gives a rule another right side, where it may have that.
fn composed(rules: &mut Rules, number: usize, right: &[Name]) -> Result<bool, AllocError>
    requires right { IsNonDecreasing right.now }
{
    if right.len() < 1 {
        return Ok(false);
    }
    let Some(rule) = rules.rule(number) else {
        return Ok(false);
    };
    if !matches!(compare(right, rule.entry.left.as_slice()), Ordering::Less) {
        return Ok(false);
    }
    rules.compose(number, right, 8)?;
    Ok(true)
}

#[test]
fn a_rule_gets_another_right_side(rt: HostRuntime) -> Result<(), Fail> {
    let mut rules = nested(rt.alloc())?;
    let right = spelled(rt.alloc(), &[4, 2])?;
    assert!(rt; composed(&mut rules, 0, &right)?);
    assert!(rt; has_rule(&rules, 0, &[0, 1, 3], &[2, 4]));
    Ok(())
}

/// Whether the rules that a release took out stand again.
fn come_back<L: Ledger>(mut rules: Rules, blank: Blank) -> Result<bool, AllocError>
    requires name { blank.name ≡ L.name }
    requires parts { blank.parts ≡ L.parts }
    requires some { 0 < blank.parts }
{
    let mut steps = Steps::<L>::new(blank);
    let shared = rules.share(&mut steps);
    let pairs = rules.release(3)?;
    rules.back(&shared, &mut steps);
    Ok(pairs.len() == 2 && has_rule(&rules, 0, &[0, 1, 3], &[2]))
}

#[test]
fn a_version_comes_back(rt: HostRuntime) -> Result<(), Fail> {
    let rules = nested(rt.alloc())?;
    assert!(rt; come_back::<Brand>(rules, Blank::new(1))?);
    Ok(())
}
