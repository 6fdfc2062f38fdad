//! Other right sides for rules.
ghost use Rattle.std.specs.Prelude.{◌≡◌, ◌≢◌, ◌<◌, ℕ, length, Some, None, IfOk, OnOk, OnErr};
ghost use Rattle.ae_multiset.specs.Multisets.{IsLess};
ghost use Rattle.ae_monoid.specs.declared.rules.Kept.{Kept};
ghost use Rattle.ae_monoid.specs.Rules.{rule_at};
ghost use Rattle.ae_monoid.specs.Changes.{with_right};
ghost use Rattle.ae_monoid.specs.Versions.{Lasts};

use crate::rules::{Kept, Rules};
use crate::symbols::{copy_names, copy_symbol};
use ae_core::lists::List;
use ae_journal::systems::RuleEntry;
use ae_multiset::spelled;
use ae_num::forms::Name;
use std::alloc::{AllocError, Global};

/// A rule with another right side, in rising order, and another justification.
fn composed(alloc: Global, rule: &Kept, right: &[Name], just: usize) -> Result<Kept, AllocError>
    ensures { IfOk result (λ new. new ≡ with_right rule.now right.now just) }
{
    Ok(Kept {
        entry: RuleEntry {
            symbol: copy_symbol(alloc, &rule.entry.symbol)?,
            left: copy_names(alloc, rule.entry.left.as_slice())?,
            right: List::from_vec(spelled(alloc, right)?),
        },
        just,
    })
}

impl Rules {
    /// Gives a rule that stands another right side and justification. A refusal leaves the rules as before.
    pub fn compose(&mut self, number: usize, right: &[Name], just: usize) -> Result<(), AllocError>
        requires stands { rule_at self.old number ≡ None → ⊥ }
        requires some { 0 < length right.now }
        requires smaller { (rule : Kept) → rule_at self.old number ≡ Some rule → IsLess right.now rule.entry.left }
        ensures rule { OnOk result ((rule : Kept) → rule_at self.old number ≡ Some rule → rule_at self.new number ≡ Some (with_right rule right.now just)) }
        ensures others { (n : ℕ) → n ≢ number → rule_at self.new n ≡ rule_at self.old n }
        ensures err { OnErr result ((n : ℕ) → rule_at self.new n ≡ rule_at self.old n) }
        ensures len { self.new.next ≡ self.old.next }
        ensures lasts { Lasts self.old self.new }
    {
        let new = match self.kept.get(number) {
            Some(rule) => composed(self.alloc, rule, right, just)?,
            None => return Ok(()),
        };
        self.kept.insert(number, new)?;
        Ok(())
    }
}
