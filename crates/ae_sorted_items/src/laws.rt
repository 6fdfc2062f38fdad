//! Laws of a lawful problem's items. This function does nothing: its contract is a theorem.
ghost use Rattle.std.specs.Prelude.{ℕ, ◌≡◌, true, [], Some};
ghost use Rattle.ae_core.specs.Signatures.{IsLawfulProblem};
ghost use Rattle.ae_core.specs.Sorts.{formula_ok};
ghost use Rattle.ae_core.specs.declared.formulas.Formula.{Formula};
ghost use Rattle.ae_core.specs.declared.problems.Problem.{Problem};
ghost use Rattle.ae_rules.specs.Derivations.{goal_body};
ghost use Rattle.ae_rules.specs.Instances.{hypothesis};

/// In a lawful problem the hypotheses without type variables and the goals are closed and well sorted.
pub fn items_are_sorted()
    ensures hypothesis { (p : Problem) (g k : ℕ) (f : Formula) → IsLawfulProblem p → hypothesis p g k [] ≡ Some f → formula_ok p.signature f ≡ true }
    ensures goal { (p : Problem) (g : ℕ) (f : Formula) → IsLawfulProblem p → goal_body p g ≡ Some f → formula_ok p.signature f ≡ true }
{}
