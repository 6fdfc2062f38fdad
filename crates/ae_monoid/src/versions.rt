//! Versions of the rules.
ghost use Rattle.std.specs.Prelude.{◌≡◌, ℕ, ◌+◌, Option};
ghost use Rattle.ae_monoid.specs.Rules.{rule_at};
ghost use Rattle.ae_monoid.specs.Versions.{Fits, StandsFor, Lasts};
ghost use Rattle.ae_monoid.specs.declared.rules.Kept.{Kept};

use crate::rules::{Rules, Shared};
use ae_steps::Steps;
use std::sync::ledger::Ledger;

impl Rules {
    /// A version of the rules, for `back`. It takes no memory, and one step for each of the three maps.
    pub fn share<L: Ledger>(&self, steps: &mut Steps<L>) -> Shared
        ensures version { StandsFor self.now result (λ n. rule_at self.now n) self.now.next }
        ensures steps { steps.new ≡ steps.old + 3 }
    {
        Shared {
            kept: self.kept.share(steps),
            next: self.next,
            largest: self.largest.share(steps),
            elements: self.elements.share(steps),
        }
    }

    /// Goes to the rules that were shared, and to the numbers that were given then. It takes no memory, and one
    /// step for each of the three maps.
    pub fn back<L: Ledger>(&mut self, shared: &Shared, steps: &mut Steps<L>)
        requires fits { Fits self.old shared.now }
        ensures rules { (rules : ℕ → Option Kept) (len : ℕ) → StandsFor self.old shared.now rules len → (n : ℕ) → rule_at self.new n ≡ rules n }
        ensures len { (rules : ℕ → Option Kept) (len : ℕ) → StandsFor self.old shared.now rules len → self.new.next ≡ len }
        ensures lasts { Lasts self.old self.new }
        ensures steps { steps.new ≡ steps.old + 3 }
    {
        self.kept.back(shared.kept, steps);
        self.largest.back(shared.largest, steps);
        self.elements.back(shared.elements, steps);
        self.next = shared.next;
    }
}
