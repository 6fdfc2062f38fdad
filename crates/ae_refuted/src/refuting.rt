//! The proof.
ghost use Rattle.std.specs.Prelude.{◌≡◌, ℕ, []};
ghost use Rattle.ae_core.specs.declared.problems.Problem.{Problem};
ghost use Rattle.ae_rules.specs.Derivations.{AreAllowed, Derives};
ghost use Rattle.ae_sat.specs.Search.{EndsEmpty};

use ae_core::lists::List;
use ae_core::proofs::{ClauseLine, Proof};

/// The lines of a refuted search as a proof: where they are allowed one after the other and end with the empty clause, as `run` says of its lines, they
/// derive the goal.
pub fn refutation(lines: Vec<ClauseLine>) -> Proof
    ensures is { result ≡ record { lines = lines.items } }
    ensures derives { (p : Problem) (g : ℕ) → AreAllowed p g [] lines.items → EndsEmpty lines.items → Derives p g result }
{
    Proof {
        lines: List::from_vec(lines),
    }
}
