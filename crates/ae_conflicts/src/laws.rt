//! Laws of conflicts. These functions do nothing: each one's contract is a theorem.
ghost use Rattle.std.specs.Prelude.{◌≡◌, ◌++◌, ℕ, List, Some};
ghost use Rattle.ae_core.specs.declared.problems.Signature.{Signature};
ghost use Rattle.ae_core.specs.declared.terms.Term.{Term};
ghost use Rattle.ae_rules.specs.Derivations.{AreContradictory};
ghost use Rattle.ae_store.specs.Terms.{Keeps};
ghost use Rattle.ae_just.specs.declared.steps.Step.{Step};
ghost use Rattle.ae_just.specs.Steps.{Fits};
ghost use Rattle.ae_theory.specs.Noting.{literals};
ghost use Rattle.ae_conflicts.specs.declared.assumed.Assumed.{Assumed};
ghost use Rattle.ae_conflicts.specs.declared.conflicts.Conflict.{Conflict};
ghost use Rattle.ae_conflicts.specs.Saying.{tagged, AreKept};
ghost use Rattle.ae_conflicts.specs.Conflicting.{IsConflict};

/// Assumed literals of which there is a conflict can't hold together.
pub fn conflicts_are_contradictory()
    ensures { (sig : Signature) (ts : List Term) (steps : List Step) (held : List (ℕ × Assumed)) (c : Conflict) → Fits sig ts steps → IsConflict sig ts steps held c
        → AreContradictory sig (literals (tagged held)) }
{}

/// A conflict stays one where there are more names, more steps and more assumed literals.
pub fn conflicts_are_kept()
    ensures { (sig : Signature) (old new : List Term) (steps more : List Step) (before after : List (ℕ × Assumed)) (c : Conflict) → Keeps old new → Fits sig old steps → AreKept before after
        → IsConflict sig old steps before c → IsConflict sig new (steps ++ more) after c }
{}
