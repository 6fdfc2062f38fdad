//! The overlaps of rules: whether both results of each reduce to one multiset.
ghost use Rattle.std.specs.Prelude.{◌≡◌, ◌↔◌, ◌++◌, true, IsTrue, IfOk};
ghost use Rattle.std.specs.List.{list_all};
ghost use Rattle.ae_multiset.specs.Multisets as multisets;
ghost use Rattle.ae_multiset.specs.Rewriting as rewriting;
ghost use Rattle.ae_core.specs.declared.problems.Signature.{Signature as SignatureOf};
ghost use Rattle.ae_decide.specs.Clauses.{AllOverlapsJoin};
ghost use Rattle.ae_decide.specs.Overlaps as spec;

use crate::reduction::{is_symbol, reduces};
use ae_core::lists::List;
use ae_core::problems::AcSymbol;
use ae_journal::systems::{RuleEntry, System};
use ae_multiset::spelled;
use ae_num::forms::Name;
use std::alloc::{AllocError, Global};

/// The names of one list, and then those of another.
fn joined(alloc: Global, first: &[Name], second: &[Name]) -> Result<List<Name>, AllocError>
    ensures { IfOk result (λ v. v ≡ first.now ++ second.now) }
{
    let mut names = List::from_slice(alloc, first)?;
    names.append(List::from_slice(alloc, second)?)?;
    Ok(names)
}

/// The names without the first of these.
fn without(alloc: Global, name: Name, names: &[Name]) -> Result<List<Name>, AllocError>
    ensures { IfOk result (λ v. v ≡ multisets.without name names.now) }
{
    match names {
        [] => Ok(List::new(alloc)),
        [first, rest @ ..] => {
            if *first == name {
                return List::from_slice(alloc, rest);
            }
            let kept = without(alloc, name, rest)?;
            joined(alloc, &[*first], kept.as_slice())
        }
    }
}

/// The names without as many as stand in the second list.
#[tactic(auto, using(crate::proofs::NormalForms::minus_step))]
fn minus(alloc: Global, names: &[Name], taken: &[Name]) -> Result<List<Name>, AllocError>
    ensures { IfOk result (λ v. v ≡ multisets.minus names.now taken.now) }
{
    let mut rest = List::from_slice(alloc, names)?;
    for name in taken {
        rest = without(alloc, *name, rest.as_slice())?;
    }
    Ok(rest)
}

/// The names that stand in both lists.
fn common(alloc: Global, left: &[Name], right: &[Name]) -> Result<List<Name>, AllocError>
    ensures { IfOk result (λ v. v ≡ multisets.common left.now right.now) }
{
    let others = minus(alloc, left, right)?;
    minus(alloc, left, others.as_slice())
}

/// One step by the first rule of a symbol whose left side is a part.
#[tactic(auto, using(crate::proofs::NormalForms::step_here, crate::proofs::NormalForms::step_past, crate::proofs::NormalForms::step_end))]
fn stepped(
    alloc: Global,
    rules: &[RuleEntry],
    symbol: &AcSymbol,
    names: &[Name],
) -> Result<Option<List<Name>>, AllocError>
    ensures { IfOk result (λ o. o ≡ spec.step_by rules.now symbol.now names.now) }
{
    for rule in rules {
        if reduces(alloc, rule, symbol, names)? {
            let rest = minus(alloc, names, rule.left.as_slice())?;
            let next = joined(alloc, rule.right.as_slice(), rest.as_slice())?;
            return Ok(Some(next));
        }
    }
    Ok(None)
}

/// The normal form by the rules of a symbol, in rising order.
pub fn normal_form(
    alloc: Global,
    rules: &[RuleEntry],
    symbol: &AcSymbol,
    names: &[Name],
) -> Result<Vec<Name>, AllocError>
    requires falls { spec.AllFall rules.now }
    ensures { IfOk result (λ v. v.items ≡ spec.nf rules.now symbol.now names.now) }
{
    let mut now = List::from_slice(alloc, names)?;
    'steps: while let Some(next) = stepped(alloc, rules, symbol, now.as_slice())? {
        now = next;
    }
    spelled(alloc, now.as_slice())
}

/// Whether two lists of names are the same.
fn same_lists(left: &[Name], right: &[Name]) -> bool
    ensures { IsTrue result ↔ (left.now ≡ right.now) }
{
    if left.len() != right.len() {
        return false;
    }
    for i in 0..left.len() {
        if left[i] != right[i] {
            return false;
        }
    }
    true
}

/// Whether two lists of names are the same, as the definitions say it.
pub fn same_names(left: &[Name], right: &[Name]) -> bool
    ensures { result ≡ spec.same_names left.now right.now }
{
    same_lists(left, right)
}

/// Whether some name stands in both lists.
fn share(alloc: Global, left: &[Name], right: &[Name]) -> Result<bool, AllocError>
    ensures { IfOk result (λ b. b ≡ spec.share left.now right.now) }
{
    let both = common(alloc, left, right)?;
    match both.as_slice() {
        [] => Ok(false),
        [_, ..] => Ok(true),
    }
}

/// What the first of two overlapping rules makes of the least multiset that has both left sides.
fn overlap_first(
    alloc: Global,
    first: &RuleEntry,
    second: &RuleEntry,
) -> Result<List<Name>, AllocError>
    ensures { IfOk result (λ v. v ≡ rewriting.overlap_first first.now.left first.now.right second.now.left) }
{
    let both = common(alloc, first.left.as_slice(), second.left.as_slice())?;
    let rest = minus(alloc, second.left.as_slice(), both.as_slice())?;
    joined(alloc, first.right.as_slice(), rest.as_slice())
}

/// What the second of them makes of it.
fn overlap_second(
    alloc: Global,
    first: &RuleEntry,
    second: &RuleEntry,
) -> Result<List<Name>, AllocError>
    ensures { IfOk result (λ v. v ≡ rewriting.overlap_second first.now.left second.now.left second.now.right) }
{
    let both = common(alloc, first.left.as_slice(), second.left.as_slice())?;
    let rest = minus(alloc, first.left.as_slice(), both.as_slice())?;
    joined(alloc, second.right.as_slice(), rest.as_slice())
}

/// Whether both results of an overlap have one normal form.
fn results_agree(
    alloc: Global,
    rules: &[RuleEntry],
    first: &RuleEntry,
    second: &RuleEntry,
) -> Result<bool, AllocError>
    requires falls { spec.AllFall rules.now }
    ensures { IfOk result (λ b. b ≡ spec.results_agree rules.now first.now second.now) }
{
    let one = overlap_first(alloc, first, second)?;
    let other = overlap_second(alloc, first, second)?;
    let one = normal_form(alloc, rules, &first.symbol, one.as_slice())?;
    let other = normal_form(alloc, rules, &first.symbol, other.as_slice())?;
    Ok(same_names(one.as_slice(), other.as_slice()))
}

/// Whether the results of an overlap of two rules have one normal form, if they overlap.
fn overlap_joins(
    alloc: Global,
    rules: &[RuleEntry],
    first: &RuleEntry,
    second: &RuleEntry,
) -> Result<bool, AllocError>
    requires falls { spec.AllFall rules.now }
    ensures { IfOk result (λ b. b ≡ spec.overlap_joins rules.now first.now second.now) }
{
    if !is_symbol(&first.symbol, &second.symbol) {
        return Ok(true);
    }
    if !share(alloc, first.left.as_slice(), second.left.as_slice())? {
        return Ok(true);
    }
    results_agree(alloc, rules, first, second)
}

/// Whether those of a rule and each have.
fn joins_with_each(alloc: Global, rules: &[RuleEntry], rule: &RuleEntry) -> Result<bool, AllocError>
    requires falls { spec.AllFall rules.now }
    ensures { IfOk result (λ b. b ≡ list_all (spec.overlap_joins rules.now rule.now) rules.now) }
{
    for other in rules {
        if !overlap_joins(alloc, rules, rule, other)? {
            return Ok(false);
        }
    }
    Ok(true)
}

/// Whether those of each two rules have.
fn all_join(alloc: Global, rules: &[RuleEntry]) -> Result<bool, AllocError>
    requires falls { spec.AllFall rules.now }
    ensures { IfOk result (λ b. b ≡ spec.all_join rules.now) }
{
    for rule in rules {
        if !joins_with_each(alloc, rules, rule)? {
            return Ok(false);
        }
    }
    Ok(true)
}

/// Whether, for each two rules of one symbol whose left sides share a name, both results of their overlap reduce to one multiset: the
/// eighth clause of a completed system. Each result is reduced as long as a rule fits.
pub fn overlaps_join(alloc: Global, system: &System) -> Result<bool, AllocError>
    requires falls { spec.AllFall system.now.rules }
    ensures { IfOk result (λ b. (signature : SignatureOf) → (b ≡ true) ↔ AllOverlapsJoin signature system.now) }
{
    all_join(alloc, system.rules.as_slice())
}
