//! Taking out the rules that others reduce.
ghost use Rattle.std.specs.Prelude.{◌≡◌, ◌<◌, ◌↔◌, ℕ, MatchBool, IfOk, OnErr};
ghost use Rattle.std.specs.List.{Contains};
ghost use Rattle.ae_monoid.specs.Rules.{rule_at};
ghost use Rattle.ae_monoid.specs.Reductions.{AreDifferent};
ghost use Rattle.ae_monoid.specs.Changes.{AreTakenOut, IsReducible};
ghost use Rattle.ae_monoid.specs.Versions.{Lasts};

use crate::pending::PendingPair;
use crate::rules::Rules;
use ae_core::lists::List;
use ae_steps::Steps;
use std::alloc::AllocError;
use std::marker::Brand;
use std::sync::ledger::{Blank, Ledger};

impl Rules {
    /// Whether another rule reduces the left side of the rule of this number.
    fn is_reducible<L: Ledger>(&self, number: usize, steps: &mut Steps<L>) -> bool
        ensures { MatchBool result (IsReducible (λ n. rule_at self.now n) number) (IsReducible (λ n. rule_at self.now n) number → ⊥) }
    {
        match self.kept.get(number) {
            Some(rule) => {
                let left = rule.entry.left.as_slice();
                self.find_but(number, &rule.entry.symbol, left, steps)
                    .is_some()
            }
            None => false,
        }
    }

    /// The numbers of the rules whose left sides another rule reduces, rising.
    fn reducible<L: Ledger>(&self, steps: &mut Steps<L>) -> Result<Vec<usize>, AllocError>
        ensures different { IfOk result (λ numbers. AreDifferent numbers.items) }
        ensures are { IfOk result (λ numbers. (n : ℕ) → Contains numbers.items n ↔ IsReducible (λ m. rule_at self.now m) n) }
    {
        let mut numbers = Vec::new(self.alloc);
        for number in 0..self.next {
            if !self.is_reducible(number, steps) {
                continue;
            }
            numbers.push(number)?;
        }
        Ok(numbers)
    }

    /// The same as `collapse`, counted by a ledger of its own.
    fn collapse_counted<L: Ledger>(&mut self, blank: Blank) -> Result<List<PendingPair>, AllocError>
        requires brand { blank.name ≡ L.name }
        requires parts { blank.parts ≡ L.parts }
        requires some { 0 < blank.parts }
        ensures pairs { IfOk result (λ pairs. AreTakenOut (λ n. rule_at self.old n) (λ n. rule_at self.new n) (λ n. IsReducible (λ m. rule_at self.old m) n) pairs) }
        ensures err { OnErr result ((n : ℕ) → rule_at self.new n ≡ rule_at self.old n) }
        ensures len { self.new.next ≡ self.old.next }
        ensures lasts { Lasts self.old self.new }
    {
        let mut steps = Steps::<L>::new(blank);
        let numbers = self.reducible(&mut steps)?;
        self.take_out(&numbers, &mut steps)
    }

    /// Takes out the rules whose left sides another rule reduces, and answers their equations. A refusal leaves
    /// the rules as before.
    pub fn collapse(&mut self) -> Result<List<PendingPair>, AllocError>
        ensures pairs { IfOk result (λ pairs. AreTakenOut (λ n. rule_at self.old n) (λ n. rule_at self.new n) (λ n. IsReducible (λ m. rule_at self.old m) n) pairs) }
        ensures err { OnErr result ((n : ℕ) → rule_at self.new n ≡ rule_at self.old n) }
        ensures len { self.new.next ≡ self.old.next }
        ensures lasts { Lasts self.old self.new }
    {
        self.collapse_counted::<Brand>(Blank::new(1))
    }
}
