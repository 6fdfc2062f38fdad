//! What is held, and single changes of it.
ghost use Rattle.std.specs.Prelude.{◌≡◌, ◌≢◌, ◌↔◌, ◌⊎◌, ◌++◌, ◌∷◌, ◌<◌, ℕ, [], length, drop, None, Some, option_copied, IsTrue, OnOk, OnErr};
ghost use Rattle.std.specs.List.{Contains};
ghost use Rattle.ae_pmap.specs.Walk.{first_of};
ghost use Rattle.ae_multiset.specs.Multisets.{IsLess};
ghost use Rattle.ae_monoid.specs.declared.rules.Kept.{Kept};
ghost use Rattle.ae_monoid.specs.Rules.{rule_at};
ghost use Rattle.ae_monoid.specs.Changes.{with_right};
ghost use Rattle.ae_equations.specs.Paired.{partners};
ghost use Rattle.ae_equations.specs.Queued.{waiting};
ghost use Rattle.ae_equations.specs.Held.{ArePairsGiven};
ghost use Rattle.ae_equations.specs.Versions.{Lasts};

use crate::pairs::{Pairs, is_noted, none_paired, note};
use crate::queue::{Queue, Waiting, first_waiting, forget, none_waiting, push_waiting};
use ae_monoid::{Rules, Shared as RulesShared};
use ae_num::forms::Name;
use ae_pmap::Version;
use std::alloc::{AllocError, Global};
use std::marker::Model;

/// The rules of all AC symbols, which of them were paired, and the equations that wait to become rules.
#[derive(Drop)]
pub struct Equations {
    pub(crate) alloc: Global,
    pub(crate) rules: Rules,
    pub(crate) pairs: Pairs,
    pub(crate) queue: Queue,
}

impl Model for Equations {
    ghost use Rattle.std.specs.Coded.{codes};
    ghost use Rattle.ae_core.specs.contracts.terms.Sort as sort;
    ghost use Rattle.ae_equations.specs.Held.{Contents};
    ghost use Rattle.ae_equations.specs.Inner.Holding.{IsHolding};

    ghost Value = { Contents };

    ghost view = { λ e. record { rules = e.rules; pairs = e.pairs; queue = e.queue } };

    ghost coded = { Prim.hlevel (codes, sort.the_row.coded) };

    ghost invariant = { λ e. IsHolding (record { rules = e.rules; pairs = e.pairs; queue = e.queue }) };
}

/// A version of what is held, for `Equations::back`.
#[derive(Clone, Copy)]
pub struct Shared {
    pub(crate) rules: RulesShared,
    pub(crate) heads: Version,
    pub(crate) places: Version,
    pub(crate) next: usize,
}

impl Equations {
    /// No rule, no pair and no equation. It takes no memory.
    pub fn new(alloc: Global) -> Equations
        ensures rules { (n : ℕ) → rule_at result.rules n ≡ None }
        ensures len { result.rules.next ≡ 0 }
        ensures pairs { (n : ℕ) → partners result.pairs n ≡ [] }
        ensures waiting { waiting result.queue ≡ [] }
    {
        Equations {
            alloc,
            rules: Rules::new(alloc),
            pairs: none_paired(alloc),
            queue: none_waiting(alloc),
        }
    }

    /// The rules. Rules that were paired have numbers that were given, so the next rule has been paired with none. It
    /// takes no memory.
    pub fn rules(&self) -> &Rules
        ensures rules { result.now ≡ self.now.rules }
        ensures given { ArePairsGiven self.now.pairs self.now.rules.next }
    {
        &self.rules
    }

    /// Puts an equation behind those that wait. A refusal leaves all as before.
    pub fn push(&mut self, equation: Waiting) -> Result<(), AllocError>
        ensures ok { OnOk result (waiting self.new.queue ≡ waiting self.old.queue ++ equation ∷ []) }
        ensures err { OnErr result (waiting self.new.queue ≡ waiting self.old.queue) }
        ensures rules { self.new.rules ≡ self.old.rules }
        ensures pairs { self.new.pairs ≡ self.old.pairs }
        ensures lasts { Lasts self.old self.new }
    {
        push_waiting(&mut self.queue, equation)
    }

    /// The oldest equation that waits, `None` exactly where none waits. It takes no memory.
    pub fn first(&self) -> Option<&Waiting>
        ensures { option_copied result ≡ first_of (waiting self.now.queue) }
    {
        first_waiting(&self.queue.places)
    }

    /// Lets the oldest equation go; where none waits, nothing changes. A refusal leaves all as before.
    pub fn forget_first(&mut self) -> Result<(), AllocError>
        ensures ok { OnOk result (waiting self.new.queue ≡ drop 1 (waiting self.old.queue)) }
        ensures err { OnErr result (waiting self.new.queue ≡ waiting self.old.queue) }
        ensures rules { self.new.rules ≡ self.old.rules }
        ensures pairs { self.new.pairs ≡ self.old.pairs }
        ensures lasts { Lasts self.old self.new }
    {
        forget(&mut self.queue)
    }

    /// Notes that two rules that stand were paired. A refusal leaves all as before.
    pub fn note_pair(&mut self, first: usize, second: usize) -> Result<(), AllocError>
        requires first { rule_at self.old.rules first ≡ None → ⊥ }
        requires second { rule_at self.old.rules second ≡ None → ⊥ }
        ensures ok { OnOk result (partners self.new.pairs first ≡ second ∷ partners self.old.pairs first) }
        ensures others { (n : ℕ) → n ≢ first → partners self.new.pairs n ≡ partners self.old.pairs n }
        ensures err { OnErr result ((n : ℕ) → partners self.new.pairs n ≡ partners self.old.pairs n) }
        ensures rules { self.new.rules ≡ self.old.rules }
        ensures queue { self.new.queue ≡ self.old.queue }
        ensures lasts { Lasts self.old self.new }
    {
        // each rule that stands has a number that was given
        let _rule = self.rules.rule(first);
        note(&mut self.pairs, first, second)
    }

    /// Whether two rules were paired, in either order. It takes no memory.
    pub fn was_paired(&self, first: usize, second: usize) -> bool
        ensures { IsTrue result ↔ (Contains (partners self.now.pairs first) second ⊎ Contains (partners self.now.pairs second) first) }
    {
        if is_noted(&self.pairs, first, second) {
            return true;
        }
        is_noted(&self.pairs, second, first)
    }

    /// Gives a rule that stands another right side, in rising order, and another justification. A refusal leaves all as
    /// before.
    pub fn compose(&mut self, number: usize, right: &[Name], just: usize) -> Result<(), AllocError>
        requires stands { rule_at self.old.rules number ≡ None → ⊥ }
        requires some { 0 < length right.now }
        requires smaller { (rule : Kept) → rule_at self.old.rules number ≡ Some rule → IsLess right.now rule.entry.left }
        ensures rule { OnOk result ((rule : Kept) → rule_at self.old.rules number ≡ Some rule → rule_at self.new.rules number ≡ Some (with_right rule right.now just)) }
        ensures others { (n : ℕ) → n ≢ number → rule_at self.new.rules n ≡ rule_at self.old.rules n }
        ensures err { OnErr result ((n : ℕ) → rule_at self.new.rules n ≡ rule_at self.old.rules n) }
        ensures len { self.new.rules.next ≡ self.old.rules.next }
        ensures pairs { self.new.pairs ≡ self.old.pairs }
        ensures queue { self.new.queue ≡ self.old.queue }
        ensures lasts { Lasts self.old self.new }
    {
        self.rules.compose(number, right, just)
    }
}
