//! Reduction of multisets.
ghost use Rattle.std.specs.Prelude.{◌≡◌, ◌<◌, ℕ, List, IfOk, IfSome, IfNone};
ghost use Rattle.std.specs.List.Sorted.{IsNonDecreasing};
ghost use Rattle.ae_multiset.specs.Multisets.{IsPart};
ghost use Rattle.ae_multiset.specs.Rewriting.{ReducesTo, IsReduced, IsLinked, OverlapsJoin};
ghost use Rattle.ae_monoid.specs.Rules.{rule_at, IsRuleOf, IsWellKept};
ghost use Rattle.ae_monoid.specs.Reductions.{ReducesBy, IsStepBy, IsTurned};

use crate::rules::{Kept, Rules};
use ae_core::lists::List;
use ae_core::problems::AcSymbol;
use ae_multiset::{minus, spelled, sum};
use ae_num::forms::Name;
use ae_steps::Steps;
use std::alloc::{AllocError, Global};
use std::marker::Brand;
use std::sync::ledger::{Blank, Ledger};

/// What a multiset was reduced to, in rising order, and the justifications of the rules in the order of their use.
#[derive(Drop)]
pub struct Reduced {
    pub names: List<Name>,
    pub justs: List<usize>,
}

/// A multiset after one step, and the justification of the rule.
#[derive(Drop)]
struct Turned {
    names: Vec<Name>,
    just: usize,
}

/// The multiset with the right side of the rule for its left side.
fn turn(alloc: Global, rule: &Kept, names: &[Name]) -> Result<Turned, AllocError>
    requires rule { IsWellKept rule.now }
    requires names { IsNonDecreasing names.now }
    requires part { IsPart rule.now.entry.left names.now }
    ensures turned { IfOk result (λ t. IsTurned rule.now names.now t.names.items) }
    ensures just { IfOk result (λ t. t.just ≡ rule.now.just) }
    ensures rises { IfOk result (λ t. IsNonDecreasing t.names.items) }
{
    let rest = minus(alloc, names, rule.entry.left.as_slice())?;
    let names = sum(alloc, rule.entry.right.as_slice(), &rest)?;
    Ok(Turned {
        names,
        just: rule.just,
    })
}

impl Rules {
    /// The multiset after one step by a rule that fits; `None` where no rule does.
    fn step<L: Ledger>(
        &self,
        symbol: &AcSymbol,
        names: &[Name],
        steps: &mut Steps<L>,
    ) -> Result<Option<Turned>, AllocError>
        requires names { IsNonDecreasing names.now }
        ensures step { IfOk result (λ o. IfSome o (λ t. IsStepBy (λ n. rule_at self.now n) symbol.now t.just names.now t.names.items)) }
        ensures rises { IfOk result (λ o. IfSome o (λ t. IsNonDecreasing t.names.items)) }
        ensures none { IfOk result (λ o. IfNone o (IsReduced (IsRuleOf (λ n. rule_at self.now n) symbol.now) names.now)) }
    {
        let Some(number) = self.find(symbol, names, steps) else {
            return Ok(None);
        };
        match self.kept.get(number) {
            Some(rule) => Ok(Some(turn(self.alloc, rule, names)?)),
            None => Ok(None),
        }
    }

    /// The same as `reduce`, counted by a ledger of its own.
    fn reduce_counted<L: Ledger>(
        &self,
        symbol: &AcSymbol,
        names: &[Name],
        blank: Blank,
    ) -> Result<Reduced, AllocError>
        requires brand { blank.name ≡ L.name }
        requires parts { blank.parts ≡ L.parts }
        requires some { 0 < blank.parts }
        ensures justs { IfOk result (λ r. ReducesBy (λ n. rule_at self.now n) symbol.now names.now r.justs r.names) }
        ensures reduced { IfOk result (λ r. IsReduced (IsRuleOf (λ n. rule_at self.now n) symbol.now) r.names) }
        ensures rises { IfOk result (λ r. IsNonDecreasing r.names) }
        ensures only { IfOk result (λ r. OverlapsJoin (IsRuleOf (λ n. rule_at self.now n) symbol.now) → (other : List ℕ) → IsNonDecreasing other
            → IsReduced (IsRuleOf (λ n. rule_at self.now n) symbol.now) other → IsLinked (IsRuleOf (λ n. rule_at self.now n) symbol.now) names.now other
            → other ≡ r.names) }
    {
        let mut steps = Steps::<L>::new(blank);
        let mut now = spelled(self.alloc, names)?;
        let mut justs = List::new(self.alloc);
        'steps: loop {
            match self.step(symbol, &now, &mut steps)? {
                Some(turned) => {
                    justs.push(turned.just)?;
                    now = turned.names;
                }
                None => {
                    return Ok(Reduced {
                        names: List::from_vec(now),
                        justs,
                    });
                }
            }
        }
    }

    /// What a multiset reduces to by the rules of a symbol, where no left side is a part any more.
    ///
    /// Where the overlaps of the rules join, each reduced multiset that is linked to the argument is the answer.
    pub fn reduce(&self, symbol: &AcSymbol, names: &[Name]) -> Result<Reduced, AllocError>
        ensures justs { IfOk result (λ r. ReducesBy (λ n. rule_at self.now n) symbol.now names.now r.justs r.names) }
        ensures reduced { IfOk result (λ r. IsReduced (IsRuleOf (λ n. rule_at self.now n) symbol.now) r.names) }
        ensures rises { IfOk result (λ r. IsNonDecreasing r.names) }
        ensures only { IfOk result (λ r. OverlapsJoin (IsRuleOf (λ n. rule_at self.now n) symbol.now) → (other : List ℕ) → IsNonDecreasing other
            → IsReduced (IsRuleOf (λ n. rule_at self.now n) symbol.now) other → IsLinked (IsRuleOf (λ n. rule_at self.now n) symbol.now) names.now other
            → other ≡ r.names) }
    {
        self.reduce_counted::<Brand>(symbol, names, Blank::new(1))
    }
}
