//! What derived lines state.
ghost use Rattle.std.specs.Prelude.{◌≡◌};
ghost use Rattle.ae_rules.specs.Lines.{states};

use ae_core::proofs::{EqLine, Relation};
use ae_core::terms::Term;

/// What a line states: a relation of two terms.
pub fn stated(line: &EqLine) -> (Relation, &Term, &Term)
    ensures { states line.now ≡ record { relation = result.0; left = (result.1).now; right = (result.2).now } }
{
    match line {
        EqLine::EqHyp { left, right, .. }
        | EqLine::EqRefl { left, right }
        | EqLine::EqSym { left, right, .. }
        | EqLine::EqTrans { left, right, .. }
        | EqLine::EqCong { left, right, .. }
        | EqLine::EqAc { left, right }
        | EqLine::EqLin { left, right, .. }
        | EqLine::EqField { left, right }
        | EqLine::EqFields { left, right, .. } => (Relation::Equal, left, right),
        EqLine::LeHyp { left, right, .. }
        | EqLine::LeSum { left, right, .. }
        | EqLine::LeRound { left, right, .. } => (Relation::AtMost, left, right),
        EqLine::LtHyp { left, right, .. } | EqLine::LtSum { left, right, .. } => {
            (Relation::Below, left, right)
        }
    }
}
