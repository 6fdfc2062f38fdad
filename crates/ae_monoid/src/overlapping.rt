//! Overlaps of rules.
ghost use Rattle.std.specs.Prelude.{◌≡◌, ◌++◌, None, IfOk, IfSome, IfNone};
ghost use Rattle.std.specs.List.Sorted.{IsNonDecreasing};
ghost use Rattle.ae_multiset.specs.Multisets.{IsSame, minus as difference};
ghost use Rattle.ae_monoid.specs.Rules.{rule_at, IsWellKept};
ghost use Rattle.ae_monoid.specs.Equations.{IsDeduced, SharesNothing, IsOverlap, AreApart};

use crate::pending::PendingPair;
use crate::rules::{Kept, Rules};
use crate::symbols::{copy_symbol, same_symbol};
use ae_core::lists::List;
use ae_multiset::{common, minus, sum};
use ae_num::forms::Name;
use std::alloc::{AllocError, Global};

/// The right side of the rule beside what the other left side has more than the shared names.
fn result(
    alloc: Global,
    rule: &Kept,
    other: &Kept,
    shared: &[Name],
) -> Result<Vec<Name>, AllocError>
    requires rule { IsWellKept rule.now }
    requires other { IsWellKept other.now }
    requires shared { IsNonDecreasing shared.now }
    ensures names { IfOk result (λ v. IsSame v.items (rule.now.entry.right ++ difference other.now.entry.left shared.now)) }
    ensures rises { IfOk result (λ v. IsNonDecreasing v.items) }
{
    let rest = minus(alloc, other.entry.left.as_slice(), shared)?;
    let names = sum(alloc, rule.entry.right.as_slice(), &rest)?;
    Ok(names)
}

/// The equation of Deduce of two rules of one symbol, `None` where their left sides share nothing.
fn overlap(alloc: Global, first: &Kept, second: &Kept) -> Result<Option<PendingPair>, AllocError>
    requires first { IsWellKept first.now }
    requires second { IsWellKept second.now }
    ensures some { IfOk result (λ o. IfSome o (λ pair. IsDeduced first.now second.now pair)) }
    ensures none { IfOk result (λ o. IfNone o (SharesNothing first.now second.now)) }
{
    let both = common(
        alloc,
        first.entry.left.as_slice(),
        second.entry.left.as_slice(),
    )?;
    let shared = both.as_slice();
    if shared.is_empty() {
        return Ok(None);
    }
    let left = result(alloc, first, second, shared)?;
    let right = result(alloc, second, first, shared)?;
    let mut justs = List::new(alloc);
    justs.push(first.just)?;
    justs.push(second.just)?;
    Ok(Some(PendingPair {
        symbol: copy_symbol(alloc, &first.entry.symbol)?,
        left: List::from_vec(left),
        right: List::from_vec(right),
        justs,
    }))
}

impl Rules {
    /// The equation of Deduce of two rules that stand, `None` exactly where their symbols differ or their left
    /// sides share nothing. A rule may be taken with itself.
    pub fn overlaps(&self, first: usize, second: usize) -> Result<Option<PendingPair>, AllocError>
        requires first { rule_at self.now first ≡ None → ⊥ }
        requires second { rule_at self.now second ≡ None → ⊥ }
        ensures some { IfOk result (λ o. IfSome o (λ pair. IsOverlap (rule_at self.now first) (rule_at self.now second) pair)) }
        ensures none { IfOk result (λ o. IfNone o (AreApart (rule_at self.now first) (rule_at self.now second))) }
    {
        let Some(one) = self.kept.get(first) else {
            return Ok(None);
        };
        let Some(other) = self.kept.get(second) else {
            return Ok(None);
        };
        if !same_symbol(&one.entry.symbol, &other.entry.symbol) {
            return Ok(None);
        }
        Ok(overlap(self.alloc, one, other)?)
    }
}
