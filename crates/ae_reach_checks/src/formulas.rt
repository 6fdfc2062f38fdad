//! Formulas in the reach.
ghost use Rattle.std.specs.Prelude.{◌≡◌};
ghost use Rattle.ae_journal.specs.Ground.{is_simple};

use ae_core::formulas::Formula;

/// Whether a formula is without inequality and without quantifier.
#[tactic(auto, using(crate::proofs::ReachedFormulas::formula_rules))]
pub fn is_formula_in_reach(formula: &Formula) -> bool
    ensures { result ≡ is_simple formula.now }
{
    match formula {
        Formula::True => true,
        Formula::False => true,
        Formula::Eq { .. } => true,
        Formula::Lt { .. } => false,
        Formula::Le { .. } => false,
        Formula::Pred { .. } => true,
        Formula::Not(part) => is_formula_in_reach(part.get()),
        Formula::And(left, right) => {
            is_formula_in_reach(left.get()) && is_formula_in_reach(right.get())
        }
        Formula::Or(left, right) => {
            is_formula_in_reach(left.get()) && is_formula_in_reach(right.get())
        }
        Formula::Xor(left, right) => {
            is_formula_in_reach(left.get()) && is_formula_in_reach(right.get())
        }
        Formula::Iff(left, right) => {
            is_formula_in_reach(left.get()) && is_formula_in_reach(right.get())
        }
        Formula::All(_) => false,
        Formula::Ex(_) => false,
    }
}
