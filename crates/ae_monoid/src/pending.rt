//! Equations that come of rules.
ghost use Rattle.std.specs.Prelude.{◌≡◌, ℕ, List, Some, None, IfOk, OnOk, OnErr};
ghost use Rattle.std.specs.List.{Contains};
ghost use Rattle.ae_base.specs.Relations.{Pairwise};
ghost use Rattle.ae_pmap.specs.Forest.{present, Lasts as MapLasts};
ghost use Rattle.ae_pmap.specs.Pairs.{found};
ghost use Rattle.ae_monoid.specs.declared.rules.Kept.{Kept};
ghost use Rattle.ae_monoid.specs.Rules.{rule_at};
ghost use Rattle.ae_monoid.specs.Changes.{IsEquationOf};
ghost use Rattle.ae_monoid.specs.Versions.{Lasts};

use crate::rules::{Kept, Rules};
use crate::symbols::{copy_names, copy_symbol};
use ae_core::lists::List;
use ae_core::problems::AcSymbol;
use ae_num::forms::Name;
use ae_pmap::Pmap;
use ae_steps::Steps;
use std::alloc::{AllocError, Global};
use std::sync::ledger::Ledger;

/// An equation between two multisets of a symbol, and the justifications of the rules that it comes from.
#[derive(Drop)]
pub struct PendingPair {
    pub symbol: AcSymbol,
    pub left: List<Name>,
    pub right: List<Name>,
    pub justs: List<usize>,
}

/// The equation of a rule.
fn equation(alloc: Global, rule: &Kept) -> Result<PendingPair, AllocError>
    ensures { IfOk result (λ pair. IsEquationOf (Some rule.now) pair) }
{
    let mut justs = List::new(alloc);
    justs.push(rule.just)?;
    Ok(PendingPair {
        symbol: copy_symbol(alloc, &rule.entry.symbol)?,
        left: copy_names(alloc, rule.entry.left.as_slice())?,
        right: copy_names(alloc, rule.entry.right.as_slice())?,
        justs,
    })
}

/// The equations of rules that stand, in the order of their numbers in the list.
fn equations(
    alloc: Global,
    kept: &Pmap<Kept>,
    numbers: &[usize],
) -> Result<List<PendingPair>, AllocError>
    requires stand { (n : ℕ) → Contains numbers.now n → found (present kept.now) n ≡ None → ⊥ }
    ensures { IfOk result (λ pairs. Pairwise (λ n pair. IsEquationOf (found (present kept.now) n) pair) numbers.now pairs) }
{
    let mut pairs = List::new(alloc);
    for number in numbers {
        let Some(rule) = kept.get(*number) else {
            continue;
        };
        let pair = equation(alloc, rule)?;
        pairs.push(pair)?;
    }
    Ok(pairs)
}

/// Removes the rules of these numbers. A refusal leaves some of it done.
fn remove_each(kept: &mut Pmap<Kept>, numbers: &[usize]) -> Result<(), AllocError>
    ensures gone { OnOk result ((n : ℕ) → Contains numbers.now n → found (present kept.new) n ≡ None) }
    ensures others { OnOk result ((n : ℕ) → (Contains numbers.now n → ⊥) → found (present kept.new) n ≡ found (present kept.old) n) }
    ensures fewer { (n : ℕ) (rule : Kept) → found (present kept.new) n ≡ Some rule → found (present kept.old) n ≡ Some rule }
    ensures lasts { MapLasts kept.old kept.new }
{
    for number in numbers {
        kept.remove(*number)?;
    }
    Ok(())
}

impl Rules {
    /// Takes out the rules of these numbers, and answers their equations. A refusal leaves the rules as before.
    pub(crate) fn take_out<L: Ledger>(
        &mut self,
        numbers: &[usize],
        steps: &mut Steps<L>,
    ) -> Result<List<PendingPair>, AllocError>
        requires stand { (n : ℕ) → Contains numbers.now n → rule_at self.old n ≡ None → ⊥ }
        ensures equations { IfOk result (λ pairs. Pairwise (λ n pair. IsEquationOf (rule_at self.old n) pair) numbers.now pairs) }
        ensures gone { OnOk result ((n : ℕ) → Contains numbers.now n → rule_at self.new n ≡ None) }
        ensures others { OnOk result ((n : ℕ) → (Contains numbers.now n → ⊥) → rule_at self.new n ≡ rule_at self.old n) }
        ensures err { OnErr result ((n : ℕ) → rule_at self.new n ≡ rule_at self.old n) }
        ensures len { self.new.next ≡ self.old.next }
        ensures lasts { Lasts self.old self.new }
    {
        let pairs = equations(self.alloc, &self.kept, numbers)?;
        let before = self.kept.share(steps);
        match remove_each(&mut self.kept, numbers) {
            Ok(()) => Ok(pairs),
            Err(refused) => {
                self.kept.back(before, steps);
                Err(refused)
            }
        }
    }
}
