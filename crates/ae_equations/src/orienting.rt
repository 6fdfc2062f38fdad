//! The oldest equation becomes a rule.
ghost use Rattle.std.specs.Prelude.{◌≡◌, ◌≢◌, ◌≤◌, ◌<◌, ◌+◌, ◌⊎◌, ℕ, length, drop, IfOk, OnOk, OnErr};
ghost use Rattle.ae_multiset.specs.Multisets.{IsSame};
ghost use Rattle.ae_monoid.specs.Rules.{rule_at};
ghost use Rattle.ae_monoid.specs.Changes.{IsOriented};
ghost use Rattle.ae_equations.specs.Queued.{waiting};
ghost use Rattle.ae_equations.specs.Versions.{Lasts};

use crate::equations::Equations;
use crate::queue::forget;
use crate::removing::{before, undo};
use ae_core::problems::AcSymbol;
use ae_num::forms::Name;
use ae_steps::Steps;
use std::alloc::AllocError;
use std::marker::Brand;
use std::sync::ledger::{Blank, Ledger};

impl Equations {
    /// The same as `orient_first`, counted by a ledger of its own: a refusal goes back to what was shared first.
    fn orient_counted<L: Ledger>(
        &mut self,
        symbol: &AcSymbol,
        left: &[Name],
        right: &[Name],
        just: usize,
        blank: Blank,
    ) -> Result<usize, AllocError>
        requires brand { blank.name ≡ L.name }
        requires parts { blank.parts ≡ L.parts }
        requires some { 0 < blank.parts }
        requires differ { IsSame left.now right.now → ⊥ }
        requires left { 0 < length left.now }
        requires right { 0 < length right.now }
        requires two { (2 ≤ length left.now) ⊎ (2 ≤ length right.now) }
        ensures number { IfOk result (λ number. number ≡ self.old.rules.next) }
        ensures rule { OnOk result (IsOriented (rule_at self.new.rules self.old.rules.next) symbol.now left.now right.now just) }
        ensures others { (n : ℕ) → n ≢ self.old.rules.next → rule_at self.new.rules n ≡ rule_at self.old.rules n }
        ensures len { OnOk result (self.new.rules.next ≡ self.old.rules.next + 1) }
        ensures waiting { OnOk result (waiting self.new.queue ≡ drop 1 (waiting self.old.queue)) }
        ensures err { OnErr result ((n : ℕ) → rule_at self.new.rules n ≡ rule_at self.old.rules n) }
        ensures err_len { OnErr result (self.new.rules.next ≡ self.old.rules.next) }
        ensures err_waiting { OnErr result (waiting self.new.queue ≡ waiting self.old.queue) }
        ensures paired { self.new.pairs ≡ self.old.pairs }
        ensures lasts { Lasts self.old self.new }
    {
        let mut steps = Steps::<L>::new(blank);
        let shared = before(&self.rules, &self.queue, &mut steps);
        let number = self.rules.orient(symbol, left, right, just)?;
        match forget(&mut self.queue) {
            Ok(()) => Ok(number),
            Err(refused) => {
                undo(&mut self.rules, &mut self.queue, &shared, &mut steps);
                Err(refused)
            }
        }
    }

    /// Lets the oldest equation go, and enters the rule from the larger of two multisets to the smaller, which it was
    /// reduced to. The answer is the rule's number. A refusal leaves all as before.
    pub fn orient_first(
        &mut self,
        symbol: &AcSymbol,
        left: &[Name],
        right: &[Name],
        just: usize,
    ) -> Result<usize, AllocError>
        requires differ { IsSame left.now right.now → ⊥ }
        requires left { 0 < length left.now }
        requires right { 0 < length right.now }
        requires two { (2 ≤ length left.now) ⊎ (2 ≤ length right.now) }
        ensures number { IfOk result (λ number. number ≡ self.old.rules.next) }
        ensures rule { OnOk result (IsOriented (rule_at self.new.rules self.old.rules.next) symbol.now left.now right.now just) }
        ensures others { (n : ℕ) → n ≢ self.old.rules.next → rule_at self.new.rules n ≡ rule_at self.old.rules n }
        ensures len { OnOk result (self.new.rules.next ≡ self.old.rules.next + 1) }
        ensures waiting { OnOk result (waiting self.new.queue ≡ drop 1 (waiting self.old.queue)) }
        ensures err { OnErr result ((n : ℕ) → rule_at self.new.rules n ≡ rule_at self.old.rules n) }
        ensures err_len { OnErr result (self.new.rules.next ≡ self.old.rules.next) }
        ensures err_waiting { OnErr result (waiting self.new.queue ≡ waiting self.old.queue) }
        ensures paired { self.new.pairs ≡ self.old.pairs }
        ensures lasts { Lasts self.old self.new }
    {
        self.orient_counted::<Brand>(symbol, left, right, just, Blank::new(1))
    }
}
