//! Rules that overlap and weren't paired.
ghost use Rattle.std.specs.Prelude.{◌≡◌, ◌<◌, ℕ, true, false, IfOk, IfNone, IfSome};
ghost use Rattle.ae_equations.specs.Paired.{partners};
ghost use Rattle.ae_gaps.specs.Inner.Overlapping.{AreUnpaired, ArePairedOrApart};
ghost use Rattle.ae_monoid.specs.Rules.{rule_at};

use ae_equations::Equations;
use std::alloc::AllocError;

/// Two rules, by their numbers.
#[derive(Clone, Copy)]
pub(crate) struct Pairing {
    pub(crate) first: usize,
    pub(crate) second: usize,
}

/// Whether two rules overlap and weren't paired.
pub(crate) fn are_unpaired(
    equations: &Equations,
    first: usize,
    second: usize,
) -> Result<bool, AllocError>
    ensures yes { IfOk result (λ b. b ≡ true → AreUnpaired (λ n. rule_at equations.now.rules n) (λ n. partners equations.now.pairs n) first second) }
    ensures no { IfOk result (λ b. b ≡ false → ArePairedOrApart (λ n. rule_at equations.now.rules n) (λ n. partners equations.now.pairs n) first second) }
{
    if equations.was_paired(first, second) {
        return Ok(false);
    }
    let rules = equations.rules();
    let Some(_one) = rules.rule(first) else {
        return Ok(false);
    };
    let Some(_other) = rules.rule(second) else {
        return Ok(false);
    };
    match rules.overlaps(first, second)? {
        Some(_pair) => Ok(true),
        None => Ok(false),
    }
}

/// The first rule of a smaller number that a rule overlaps and wasn't paired with.
fn unpaired_with(equations: &Equations, second: usize) -> Result<Option<usize>, AllocError>
    ensures none { IfOk result (λ o. IfNone o ((m : ℕ) → m < second → ArePairedOrApart (λ n. rule_at equations.now.rules n) (λ n. partners equations.now.pairs n) m second)) }
    ensures some { IfOk result (λ o. IfSome o (λ m. (m < second) × AreUnpaired (λ n. rule_at equations.now.rules n) (λ n. partners equations.now.pairs n) m second)) }
{
    for first in 0..second {
        if are_unpaired(equations, first, second)? {
            return Ok(Some(first));
        }
    }
    Ok(None)
}

/// The first two rules that overlap and weren't paired, the smaller number first.
pub(crate) fn first_unpaired(equations: &Equations) -> Result<Option<Pairing>, AllocError>
    ensures none { IfOk result (λ o. IfNone o ((m n : ℕ) → m < n → n < equations.now.rules.next
        → ArePairedOrApart (λ k. rule_at equations.now.rules k) (λ k. partners equations.now.pairs k) m n)) }
    ensures some { IfOk result (λ o. IfSome o (λ p. (p.first < p.second) × AreUnpaired (λ n. rule_at equations.now.rules n) (λ n. partners equations.now.pairs n) p.first p.second)) }
{
    for second in 0..equations.rules().len() {
        if let Some(first) = unpaired_with(equations, second)? {
            return Ok(Some(Pairing { first, second }));
        }
    }
    Ok(None)
}
