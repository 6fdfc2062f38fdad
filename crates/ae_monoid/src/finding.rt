//! Finding a rule whose left side is a part of a multiset.
ghost use Rattle.std.specs.Prelude.{◌≡◌, ℕ, ◌+◌, ◌≤◌, ◌⊎◌, length, MatchBool, IfSome, IfNone, Some};
ghost use Rattle.std.specs.List.Sorted.{IsNonDecreasing};
ghost use Rattle.ae_pmap.specs.Forest.{present};
ghost use Rattle.ae_pmap.specs.Pairs.{found};
ghost use Rattle.ae_multiset.specs.Multisets.{IsPart};
ghost use Rattle.ae_multiset.specs.Rewriting.{IsReduced};
ghost use Rattle.ae_monoid.specs.Rules.{rule_at, IsFit, IsUnfit, IsRuleOf};
ghost use Rattle.ae_monoid.specs.Reductions.{IsCandidate, AreAtMost};
ghost use Rattle.ae_monoid.specs.Inner.Chains.{AreLinked, IsOn};
ghost use Rattle.ae_monoid.specs.Inner.Indexes.{hiding, IsOf, AreTestedOn};
ghost use Rattle.ae_monoid.specs.declared.rules.Kept.{Kept};

use crate::chains::{Link, head_of};
use crate::rules::{Kept, Rules};
use crate::symbols::same_symbol;
use ae_core::problems::AcSymbol;
use ae_num::forms::Name;
use ae_pmap::Pmap;
use ae_steps::Steps;
use std::sync::ledger::Ledger;

/// Whether the one multiset is a part of the other, counted as one step.
pub fn part_of<L: Ledger>(small: &[Name], big: &[Name], steps: &mut Steps<L>) -> bool
    requires small { IsNonDecreasing small.now }
    requires big { IsNonDecreasing big.now }
    ensures part { MatchBool result (IsPart small.now big.now) (IsPart small.now big.now → ⊥) }
    ensures step { steps.new ≡ steps.old + 1 }
{
    steps.tick();
    ae_multiset::part_of(small, big)
}

/// Whether the rule of this number is one of the symbol and its left side a part of the multiset. It counts a
/// step where the rule is one of the symbol.
pub(crate) fn fits_at<L: Ledger>(
    kept: &Pmap<Kept>,
    number: usize,
    symbol: &AcSymbol,
    names: &[Name],
    steps: &mut Steps<L>,
) -> bool
    requires rule { (k : Kept) → found (present kept.now) number ≡ Some k → IsNonDecreasing k.entry.left }
    requires names { IsNonDecreasing names.now }
    ensures fit { MatchBool result (IsFit (found (present kept.now) number) symbol.now names.now) (IsUnfit (found (present kept.now) number) symbol.now names.now) }
    ensures steps { (steps.new ≡ steps.old) ⊎ ((steps.new ≡ steps.old + 1) × IsOf (found (present kept.now) number) symbol.now) }
{
    match kept.get(number) {
        Some(rule) => {
            same_symbol(&rule.entry.symbol, symbol)
                && part_of(rule.entry.left.as_slice(), names, steps)
        }
        None => false,
    }
}

/// The same for another rule than that of the number `but`.
fn fits_but<L: Ledger>(
    kept: &Pmap<Kept>,
    but: usize,
    number: usize,
    symbol: &AcSymbol,
    names: &[Name],
    steps: &mut Steps<L>,
) -> bool
    requires rule { (k : Kept) → found (present kept.now) number ≡ Some k → IsNonDecreasing k.entry.left }
    requires names { IsNonDecreasing names.now }
    ensures fit { MatchBool result (IsFit (hiding (found (present kept.now)) but number) symbol.now names.now) (IsUnfit (hiding (found (present kept.now)) but number) symbol.now names.now) }
    ensures steps { (steps.new ≡ steps.old) ⊎ ((steps.new ≡ steps.old + 1) × IsOf (hiding (found (present kept.now)) but number) symbol.now) }
{
    if number == but {
        return false;
    }
    fits_at(kept, number, symbol, names, steps)
}

/// The first rule on a chain that fits, that of the number `but` left out.
fn first_on<L: Ledger>(
    kept: &Pmap<Kept>,
    but: usize,
    links: &[Link],
    head: usize,
    symbol: &AcSymbol,
    names: &[Name],
    steps: &mut Steps<L>,
) -> Option<usize>
    requires linked { AreLinked links.now }
    requires within { head ≤ length links.now }
    requires rules { (n : ℕ) (k : Kept) → found (present kept.now) n ≡ Some k → IsNonDecreasing k.entry.left }
    requires names { IsNonDecreasing names.now }
    ensures some { IfSome result (λ number. IsFit (hiding (found (present kept.now)) but number) symbol.now names.now) }
    ensures none { IfNone result ((number : ℕ) → IsOn links.now head number → IsUnfit (hiding (found (present kept.now)) but number) symbol.now names.now) }
    ensures tested { AreTestedOn (hiding (found (present kept.now)) but) links.now head symbol.now steps.old steps.new }
{
    let mut at = head;
    while at > 0 {
        let link = links[at - 1];
        if fits_but(kept, but, link.number, symbol, names, steps) {
            return Some(link.number);
        }
        at = link.next;
    }
    None
}

impl Rules {
    /// The same as `find`, the rule of the number `but` left out.
    pub(crate) fn find_but<L: Ledger>(
        &self,
        but: usize,
        symbol: &AcSymbol,
        names: &[Name],
        steps: &mut Steps<L>,
    ) -> Option<usize>
        requires names { IsNonDecreasing names.now }
        ensures some { IfSome result (λ number. IsFit (hiding (λ n. rule_at self.now n) but number) symbol.now names.now) }
        ensures none { IfNone result (IsReduced (IsRuleOf (hiding (λ n. rule_at self.now n) but) symbol.now) names.now) }
        ensures bound { (most : ℕ) → AreAtMost most (λ n. IsCandidate (hiding (λ m. rule_at self.now m) but n) symbol.now names.now) → steps.new ≤ steps.old + most }
    {
        for i in 0..names.len() {
            if i > 0 && names[i - 1] == names[i] {
                continue;
            }
            let head = head_of(&self.largest, &self.links, names[i]);
            if let Some(number) = first_on(
                &self.kept,
                but,
                &self.links,
                head,
                symbol,
                names,
                steps,
            ) {
                return Some(number);
            }
        }
        None
    }

    /// The number of a rule of the symbol whose left side is a part of the multiset, `None` exactly where there
    /// is none. It takes no memory, and at most as many steps as there are rules of the symbol whose left side's
    /// largest name is in the multiset.
    pub fn find<L: Ledger>(
        &self,
        symbol: &AcSymbol,
        names: &[Name],
        steps: &mut Steps<L>,
    ) -> Option<usize>
        requires names { IsNonDecreasing names.now }
        ensures some { IfSome result (λ number. IsFit (rule_at self.now number) symbol.now names.now) }
        ensures none { IfNone result (IsReduced (IsRuleOf (λ n. rule_at self.now n) symbol.now) names.now) }
        ensures bound { (most : ℕ) → AreAtMost most (λ n. IsCandidate (rule_at self.now n) symbol.now names.now) → steps.new ≤ steps.old + most }
    {
        // the next number is that of no rule
        self.find_but(self.next, symbol, names, steps)
    }
}
