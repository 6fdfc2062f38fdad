//! Entering of rules.
ghost use Rattle.std.specs.Prelude.{◌≡◌, ◌≢◌, ◌≤◌, ◌<◌, ◌+◌, ◌⊎◌, ℕ, length, Some, IfOk, OnOk, OnErr};
ghost use Rattle.std.specs.List.{Contains};
ghost use Rattle.std.specs.List.Sorted.{IsNonDecreasing};
ghost use Rattle.ae_multiset.specs.Multisets.{IsSame};
ghost use Rattle.ae_pmap.specs.Forest.{present, Lasts as MapLasts};
ghost use Rattle.ae_pmap.specs.Pairs.{found};
ghost use Rattle.ae_monoid.specs.Rules.{rule_at, IsWellKept};
ghost use Rattle.ae_monoid.specs.Changes.{IsOriented};
ghost use Rattle.ae_monoid.specs.Versions.{Lasts};
ghost use Rattle.ae_monoid.specs.Inner.Chains.{AreLinked, AreHeads, IsOnOf, Grows};
ghost use Rattle.ae_monoid.specs.Inner.Indexes.{AreIndexed};

use crate::chains::{Link, add_link};
use crate::rules::{Kept, Rules};
use crate::symbols::copy_symbol;
use ae_core::lists::List;
use ae_core::problems::AcSymbol;
use ae_journal::systems::RuleEntry;
use ae_multiset::{compare, spelled};
use ae_num::forms::Name;
use ae_pmap::Pmap;
use ae_steps::Steps;
use std::alloc::{AllocError, Global};
use std::cmp::Ordering;
use std::marker::Brand;
use std::sync::ledger::{Blank, Ledger};

/// Puts a number before the chain of each name, once where the name stands twice. A refusal leaves some of it done.
fn link_each(
    heads: &mut Pmap<usize>,
    links: &mut Vec<Link>,
    names: &[Name],
    number: usize,
) -> Result<(), AllocError>
    requires linked { AreLinked links.old.items }
    requires heads { AreHeads heads.old links.old.items }
    requires above { (name other : ℕ) → IsOnOf heads.old links.old.items name other → other < number }
    requires names { IsNonDecreasing names.now }
    ensures linked { AreLinked links.new.items }
    ensures heads { AreHeads heads.new links.new.items }
    ensures grows { Grows links.old.items links.new.items }
    ensures named { OnOk result ((name : ℕ) → Contains names.now name → IsOnOf heads.new links.new.items name number) }
    ensures stays { OnOk result ((name other : ℕ) → IsOnOf heads.old links.old.items name other → IsOnOf heads.new links.new.items name other) }
    ensures only { OnOk result ((name other : ℕ) → IsOnOf heads.new links.new.items name other → IsOnOf heads.old links.old.items name other ⊎ (Contains names.now name × (other ≡ number))) }
    ensures lasts { MapLasts heads.old heads.new }
{
    for i in 0..names.len() {
        if i > 0 && names[i - 1] == names[i] {
            continue;
        }
        add_link(heads, links, names[i], number)?;
    }
    Ok(())
}

/// Puts a rule under the next number into the map and both indexes. A refusal leaves some of it done.
fn enter_in(
    kept: &mut Pmap<Kept>,
    largest: &mut Pmap<usize>,
    elements: &mut Pmap<usize>,
    links: &mut Vec<Link>,
    number: usize,
    rule: Kept,
) -> Result<(), AllocError>
    requires indexed { AreIndexed (λ n. found (present kept.old) n) number (λ n. found (present largest.old) n) (λ n. found (present elements.old) n) links.old.items }
    requires rule { IsWellKept rule }
    ensures indexed { OnOk result (AreIndexed (λ n. found (present kept.new) n) (number + 1) (λ n. found (present largest.new) n) (λ n. found (present elements.new) n) links.new.items) }
    ensures rule { OnOk result (found (present kept.new) number ≡ Some rule) }
    ensures others { (n : ℕ) → n ≢ number → found (present kept.new) n ≡ found (present kept.old) n }
    ensures err { OnErr result (present kept.new ≡ present kept.old) }
    ensures linked { AreLinked links.new.items }
    ensures grows { Grows links.old.items links.new.items }
    ensures kept_lasts { MapLasts kept.old kept.new }
    ensures largest_lasts { MapLasts largest.old largest.new }
    ensures elements_lasts { MapLasts elements.old elements.new }
{
    let names = rule.entry.left.as_slice();
    add_link(largest, links, names[names.len() - 1], number)?;
    link_each(elements, links, names, number)?;
    kept.insert(number, rule)?;
    Ok(())
}

/// The rule with these sides.
fn rule_of(symbol: AcSymbol, left: Vec<Name>, right: Vec<Name>, just: usize) -> Kept
    ensures { result ≡ record { entry = record { symbol = symbol; left = left.items; right = right.items }; just = just } }
{
    Kept {
        entry: RuleEntry {
            symbol,
            left: List::from_vec(left),
            right: List::from_vec(right),
        },
        just,
    }
}

/// The rule from the larger of two multisets to the smaller.
fn oriented(
    alloc: Global,
    symbol: &AcSymbol,
    left: &[Name],
    right: &[Name],
    just: usize,
) -> Result<Kept, AllocError>
    requires differ { IsSame left.now right.now → ⊥ }
    requires left { 0 < length left.now }
    requires right { 0 < length right.now }
    requires two { (2 ≤ length left.now) ⊎ (2 ≤ length right.now) }
    ensures oriented { IfOk result (λ rule. IsOriented (Some rule) symbol.now left.now right.now just) }
    ensures well { IfOk result (λ rule. IsWellKept rule) }
{
    let symbol = copy_symbol(alloc, symbol)?;
    let left = spelled(alloc, left)?;
    let right = spelled(alloc, right)?;
    match compare(&left, &right) {
        Ordering::Less => Ok(rule_of(symbol, right, left, just)),
        Ordering::Equal => Ok(rule_of(symbol, left, right, just)),
        Ordering::Greater => Ok(rule_of(symbol, left, right, just)),
    }
}

impl Rules {
    /// Enters a rule under the next number, counted by a ledger of its own: a refusal goes back to the versions of
    /// the indexes that were shared first.
    fn enter<L: Ledger>(&mut self, rule: Kept, blank: Blank) -> Result<usize, AllocError>
        requires brand { blank.name ≡ L.name }
        requires parts { blank.parts ≡ L.parts }
        requires some { 0 < blank.parts }
        requires rule { IsWellKept rule }
        ensures number { IfOk result (λ number. number ≡ self.old.next) }
        ensures rule { OnOk result (rule_at self.new self.old.next ≡ Some rule) }
        ensures others { (n : ℕ) → n ≢ self.old.next → rule_at self.new n ≡ rule_at self.old n }
        ensures len { OnOk result (self.new.next ≡ self.old.next + 1) }
        ensures err { OnErr result ((n : ℕ) → rule_at self.new n ≡ rule_at self.old n) }
        ensures err_len { OnErr result (self.new.next ≡ self.old.next) }
        ensures lasts { Lasts self.old self.new }
    {
        let mut steps = Steps::<L>::new(blank);
        let largest = self.largest.share(&mut steps);
        let elements = self.elements.share(&mut steps);
        let number = self.next;
        match enter_in(
            &mut self.kept,
            &mut self.largest,
            &mut self.elements,
            &mut self.links,
            number,
            rule,
        ) {
            Ok(()) => {
                self.next = number + 1;
                Ok(number)
            }
            Err(refused) => {
                self.largest.back(largest, &mut steps);
                self.elements.back(elements, &mut steps);
                Err(refused)
            }
        }
    }

    /// Enters the rule from the larger of two multisets to the smaller, and answers its number. A refusal leaves
    /// the rules as before.
    pub fn orient(
        &mut self,
        symbol: &AcSymbol,
        left: &[Name],
        right: &[Name],
        just: usize,
    ) -> Result<usize, AllocError>
        requires differ { IsSame left.now right.now → ⊥ }
        requires left { 0 < length left.now }
        requires right { 0 < length right.now }
        requires two { (2 ≤ length left.now) ⊎ (2 ≤ length right.now) }
        ensures number { IfOk result (λ number. number ≡ self.old.next) }
        ensures rule { OnOk result (IsOriented (rule_at self.new self.old.next) symbol.now left.now right.now just) }
        ensures others { (n : ℕ) → n ≢ self.old.next → rule_at self.new n ≡ rule_at self.old n }
        ensures len { OnOk result (self.new.next ≡ self.old.next + 1) }
        ensures err { OnErr result ((n : ℕ) → rule_at self.new n ≡ rule_at self.old n) }
        ensures err_len { OnErr result (self.new.next ≡ self.old.next) }
        ensures lasts { Lasts self.old self.new }
    {
        let rule = oriented(self.alloc, symbol, left, right, just)?;
        self.enter::<Brand>(rule, Blank::new(1))
    }
}
