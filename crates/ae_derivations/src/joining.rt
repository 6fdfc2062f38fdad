//! A derivation after another.
ghost use Rattle.std.specs.Prelude.{◌≡◌, ◌+◌, ◌++◌, [], ℕ, length, map, IfOk};
ghost use Rattle.std.specs.List.{AllByRecursion};
ghost use Rattle.ae_rules.specs.Built.{HasFactorsWithin};
ghost use Rattle.ae_rules.specs.Lines.{Fact, Stated, AllAllowed, fact_ok};
ghost use Rattle.ae_core.specs.declared.problems.Signature.{Signature};
ghost use Rattle.ae_derivations.specs.Inner.Moved as spec;

use crate::moving::{Move, moved};
use ae_core::copies::copy_clause;
use ae_core::lists::List;
use ae_core::proofs::{Deriv, EqLine};
use std::alloc::{AllocError, Global};

/// The lines, with their numbers moved up.
fn all_moved(alloc: Global, lines: &[EqLine], by: Move) -> Result<List<EqLine>, AllocError>
    ensures { IfOk result (λ copies. copies ≡ map (spec.moved by.lines by.hyps) lines.now) }
{
    let mut copies = List::new(alloc);
    for line in lines {
        copies.push(moved(alloc, line, by)?)?;
    }
    Ok(copies)
}

/// A derivation, and another after it: the hypotheses of both, and the lines of both, of which the second ones name their lines and
/// hypotheses by their new numbers. Where both are allowed, so is this one, and where both have factors within their limits, so has this one.
pub fn joined(alloc: Global, first: Deriv, second: &Deriv) -> Result<Deriv, AllocError>
    ensures hyps { IfOk result (λ both. both.hyps ≡ first.hyps ++ second.now.hyps) }
    ensures lines { IfOk result (λ both. length both.lines ≡ length first.lines + length second.now.lines) }
    ensures before { IfOk result (λ both. (k : ℕ) (f : Fact) → Stated first.lines k f → Stated both.lines k f) }
    ensures after { IfOk result (λ both. (k : ℕ) (f : Fact) → Stated second.now.lines k f → Stated both.lines (length first.lines + k) f) }
    ensures allowed { IfOk result (λ both. (sig : Signature) → AllAllowed sig (fact_ok sig) first.hyps [] first.lines → AllAllowed sig (fact_ok sig) second.now.hyps [] second.now.lines
        → AllAllowed sig (fact_ok sig) both.hyps [] both.lines) }
    ensures factors { IfOk result (λ both. AllByRecursion HasFactorsWithin first.lines → AllByRecursion HasFactorsWithin second.now.lines → AllByRecursion HasFactorsWithin both.lines) }
{
    let by = Move {
        lines: first.lines.len(),
        hyps: first.hyps.len(),
    };
    let Deriv {
        mut hyps,
        mut lines,
    } = first;
    hyps.append(copy_clause(alloc, second.hyps.as_slice())?)?;
    lines.append(all_moved(alloc, second.lines.as_slice(), by)?)?;
    Ok(Deriv { hyps, lines })
}
