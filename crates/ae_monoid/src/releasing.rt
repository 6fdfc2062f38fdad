//! Taking out the rules that have a name in their left sides.
ghost use Rattle.std.specs.Prelude.{◌≡◌, ◌<◌, ◌≤◌, ◌↔◌, ℕ, length, None, IfOk, OnErr};
ghost use Rattle.std.specs.List.{Contains};
ghost use Rattle.ae_pmap.specs.Forest.{present};
ghost use Rattle.ae_pmap.specs.Pairs.{found};
ghost use Rattle.ae_monoid.specs.Rules.{rule_at};
ghost use Rattle.ae_monoid.specs.Reductions.{AreDifferent};
ghost use Rattle.ae_monoid.specs.Changes.{AreTakenOut, HasName};
ghost use Rattle.ae_monoid.specs.Versions.{Lasts};
ghost use Rattle.ae_monoid.specs.Inner.Chains.{AreLinked, IsOn};
ghost use Rattle.ae_monoid.specs.Inner.Indexes.{StandsOn};

use crate::chains::{Link, head_of};
use crate::pending::PendingPair;
use crate::rules::{Kept, Rules};
use ae_core::lists::List;
use ae_num::forms::Name;
use ae_pmap::Pmap;
use ae_steps::Steps;
use std::alloc::{AllocError, Global};
use std::marker::Brand;
use std::sync::ledger::{Blank, Ledger};

/// The numbers on a chain of the rules that stand.
fn standing_on(
    alloc: Global,
    kept: &Pmap<Kept>,
    links: &[Link],
    head: usize,
) -> Result<Vec<usize>, AllocError>
    requires linked { AreLinked links.now }
    requires within { head ≤ length links.now }
    ensures different { IfOk result (λ numbers. AreDifferent numbers.items) }
    ensures are { IfOk result (λ numbers. (n : ℕ) → Contains numbers.items n ↔ StandsOn (found (present kept.now)) links.now head n) }
{
    let mut numbers = Vec::new(alloc);
    let mut at = head;
    while at > 0 {
        let link = links[at - 1];
        match kept.get(link.number) {
            Some(_) => numbers.push(link.number)?,
            None => {}
        }
        at = link.next;
    }
    Ok(numbers)
}

impl Rules {
    /// The numbers of the rules whose left sides have the name.
    fn having(&self, name: Name) -> Result<Vec<usize>, AllocError>
        ensures different { IfOk result (λ numbers. AreDifferent numbers.items) }
        ensures are { IfOk result (λ numbers. (n : ℕ) → Contains numbers.items n ↔ HasName name (rule_at self.now n)) }
    {
        let head = head_of(&self.elements, &self.links, name);
        standing_on(self.alloc, &self.kept, &self.links, head)
    }

    /// The same as `release`, counted by a ledger of its own.
    fn release_counted<L: Ledger>(
        &mut self,
        name: Name,
        blank: Blank,
    ) -> Result<List<PendingPair>, AllocError>
        requires brand { blank.name ≡ L.name }
        requires parts { blank.parts ≡ L.parts }
        requires some { 0 < blank.parts }
        ensures pairs { IfOk result (λ pairs. AreTakenOut (λ n. rule_at self.old n) (λ n. rule_at self.new n) (λ n. HasName name (rule_at self.old n)) pairs) }
        ensures err { OnErr result ((n : ℕ) → rule_at self.new n ≡ rule_at self.old n) }
        ensures len { self.new.next ≡ self.old.next }
        ensures lasts { Lasts self.old self.new }
    {
        let mut steps = Steps::<L>::new(blank);
        let numbers = self.having(name)?;
        self.take_out(&numbers, &mut steps)
    }

    /// Takes out the rules whose left sides have the name, and answers their equations. It looks at rules that
    /// have the name alone. A refusal leaves the rules as before.
    pub fn release(&mut self, name: Name) -> Result<List<PendingPair>, AllocError>
        ensures pairs { IfOk result (λ pairs. AreTakenOut (λ n. rule_at self.old n) (λ n. rule_at self.new n) (λ n. HasName name (rule_at self.old n)) pairs) }
        ensures err { OnErr result ((n : ℕ) → rule_at self.new n ≡ rule_at self.old n) }
        ensures len { self.new.next ≡ self.old.next }
        ensures lasts { Lasts self.old self.new }
    {
        self.release_counted::<Brand>(name, Blank::new(1))
    }
}
