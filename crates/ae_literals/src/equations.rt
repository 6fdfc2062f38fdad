//! Literals that are equations.
ghost use Rattle.std.specs.Prelude.{◌≡◌, ◌↔◌, ℕ, List, IsTrue, IfNone, IfSome, slice_get, Some};
ghost use Rattle.ae_core.specs.declared.problems.Signature.{Signature};
ghost use Rattle.ae_store.specs.declared.nodes.Node.{Node};
ghost use Rattle.ae_sweeps.specs.Given.{rep_in};
ghost use Rattle.ae_literals.specs.declared.said.Said.{Said as SaidView};
ghost use Rattle.ae_literals.specs.Unmet.{IsUnmet};
ghost use Rattle.ae_literals.specs.Inner.Parts.{LeavesOut, Contradicts};

use crate::said::Said;
use crate::unmet::Unmet;
use ae_num::forms::Name;
use ae_sweeps::representative;

/// Whether it says that two names are equal that have different representatives.
fn leaves_out(reps: &[Name], said: Said) -> bool
    ensures { IsTrue result ↔ LeavesOut (rep_in reps.now) said }
{
    match said {
        Said::Equal {
            positive,
            left,
            right,
        } => { positive && representative(reps, left) != representative(reps, right) }
        Said::Atom { .. } => false,
        Said::Other => false,
    }
}

/// Whether it says that two names differ that have one representative.
fn contradicts(reps: &[Name], said: Said) -> bool
    ensures { IsTrue result ↔ Contradicts (rep_in reps.now) said }
{
    match said {
        Said::Equal {
            positive,
            left,
            right,
        } => { !positive && representative(reps, left) == representative(reps, right) }
        Said::Atom { .. } => false,
        Said::Other => false,
    }
}

/// The first equation that is left out.
pub(crate) fn first_left_out(reps: &[Name], said: &[Said]) -> Option<Unmet>
    ensures none { IfNone result ((k : ℕ) (y : SaidView) → slice_get said.now k ≡ Some y → ¬ LeavesOut (rep_in reps.now) y) }
    ensures some { (sig : Signature) (nodes : List Node) → IfSome result (λ u. IsUnmet sig nodes (rep_in reps.now) said.now u) }
{
    for at in 0..said.len() {
        if leaves_out(reps, said[at]) {
            return Some(Unmet::LeftOut(at));
        }
    }
    None
}

/// The first equation that is contradicted.
pub(crate) fn first_contradicted(reps: &[Name], said: &[Said]) -> Option<Unmet>
    ensures none { IfNone result ((k : ℕ) (y : SaidView) → slice_get said.now k ≡ Some y → ¬ Contradicts (rep_in reps.now) y) }
    ensures some { (sig : Signature) (nodes : List Node) → IfSome result (λ u. IsUnmet sig nodes (rep_in reps.now) said.now u) }
{
    for at in 0..said.len() {
        if contradicts(reps, said[at]) {
            return Some(Unmet::Contradicted(at));
        }
    }
    None
}
