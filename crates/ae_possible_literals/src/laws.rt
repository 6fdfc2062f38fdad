//! Laws of literals that may stand. This function does nothing: its contract is a theorem.
ghost use Rattle.std.specs.Prelude.{◌≡◌, Bool, List, Some};
ghost use Rattle.ae_core.specs.declared.formulas.Lit.{Lit};
ghost use Rattle.ae_core.specs.declared.terms.Term.{Term};
ghost use Rattle.ae_explain.specs.declared.trail.Assigned.{Assigned};
ghost use Rattle.ae_journal.specs.Standing.{MayStand, Setting};
ghost use Rattle.ae_journal.specs.States.{inequality};
ghost use Rattle.ae_journal.specs.declared.lines.Line.{Line};
ghost use Rattle.ae_possible_literals.specs.Filled.{IsFilled};
ghost use Rattle.ae_propagation.specs.Settled.{Holds};
ghost use Rattle.ae_rules.specs.Clauses.{Clause, opposite};

/// In an open trail that has what possible clauses ask for, each inequality literal that may stand is true, and nothing may stand whose opposite is true.
pub fn what_may_stand_is_true()
    ensures inequalities { (x : Setting) (js : List Line) (t : List Assigned) (clauses : List Clause) → IsFilled x js t clauses →
        (l : Lit) (s u : Term) (strict : Bool) → MayStand x js l → inequality l ≡ Some (s, u, strict) → Holds t l }
    ensures consistent { (x : Setting) (js : List Line) (t : List Assigned) (clauses : List Clause) → IsFilled x js t clauses → (l : Lit) → MayStand x js l → ¬ Holds t (opposite l) }
{}
