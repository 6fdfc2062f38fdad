//! Laws of what steps state. This function does nothing: its contract is a theorem.
ghost use Rattle.std.specs.Prelude.{◌≡◌, ℕ, Bool, List, slice_get, Some};
ghost use Rattle.ae_core.specs.declared.problems.Signature.{Signature};
ghost use Rattle.ae_core.specs.declared.terms.Term.{Term};
ghost use Rattle.ae_core.specs.declared.formulas.Lit.{Lit};
ghost use Rattle.ae_rules.specs.Lines.{fact_ok, Among, Follows, Conseq};
ghost use Rattle.ae_rules.specs.Valuations.{Where};
ghost use Rattle.ae_just.specs.declared.steps.Step.{Step};
ghost use Rattle.ae_just.specs.Sides.{side_term};
ghost use Rattle.ae_just.specs.Steps.{fact_of, Fits};
ghost use Rattle.ae_follows.specs.Assuming.{AssumesOnly, AssumesEquations};

/// The equation of a step follows from literals where each literal that it rests on is one of them, and it is a consequence of equations where
/// these literals are such equations.
pub fn equations_of_steps_follow()
    ensures follows { (sig : Signature) (ts : List Term) (steps : List Step) (hyps : List Lit) (id : ℕ) (s : Step) → Fits sig ts steps → slice_get steps id ≡ Some s
        → AssumesOnly ts steps (Among hyps) id → Follows sig (fact_ok sig) (Among hyps) (fact_of ts s) }
    ensures consequence { (sig : Signature) (ts : List Term) (steps : List Step) (E : Term → Term → Bool) (id : ℕ) (s : Step) → Fits sig ts steps → slice_get steps id ≡ Some s
        → AssumesEquations ts steps (Where E) id → Conseq sig (Where E) (side_term ts s.left) (side_term ts s.right) }
{}
