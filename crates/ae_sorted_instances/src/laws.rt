//! Laws of the instances of axioms. This function does nothing: its contract is a theorem.
ghost use Rattle.std.specs.Prelude.{ℕ, ◌≡◌, ◌∷◌, [], true, List, Some};
ghost use Rattle.std.specs.List.{list_all};
ghost use Rattle.ae_core.specs.Signatures.{IsLawfulProblem};
ghost use Rattle.ae_core.specs.Sorts.{formula_ok, is_closed_sort};
ghost use Rattle.ae_core.specs.declared.formulas.Formula.{Formula};
ghost use Rattle.ae_core.specs.declared.problems.Problem.{Problem};
ghost use Rattle.ae_core.specs.declared.proofs.ClauseLine.TheVariants as clause_line;
ghost use Rattle.ae_core.specs.declared.terms.Sort.{Sort};
ghost use Rattle.ae_rules.specs.Clauses.{yes_of};
ghost use Rattle.ae_rules.specs.Derivations.{conclusion};
ghost use Rattle.ae_rules.specs.Instances.{hypothesis};

/// In a lawful problem an axiom with closed sorts put for its type variables is closed and well sorted, and a line may state it.
pub fn instances_are_sorted()
    ensures sorted { (p : Problem) (g k : ℕ) (ss : List Sort) (f : Formula) → IsLawfulProblem p → list_all (is_closed_sort p.signature) ss ≡ true → hypothesis p g k ss ≡ Some f → formula_ok p.signature f ≡ true }
    ensures stated { (p : Problem) (g k : ℕ) (ss : List Sort) (f : Formula) → IsLawfulProblem p → list_all (is_closed_sort p.signature) ss ≡ true → hypothesis p g k ss ≡ Some f →
        conclusion p g (clause_line.Hyp k ss) ≡ Some (yes_of f ∷ []) }
{}
