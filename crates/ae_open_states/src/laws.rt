//! Laws of searches that have nothing left to do. This function does nothing: its contract is a theorem.
ghost use Rattle.std.specs.Prelude.{ℕ, List};
ghost use Rattle.ae_core.specs.declared.problems.Problem.{Problem};
ghost use Rattle.ae_explain.specs.declared.trail.Assigned.{Assigned};
ghost use Rattle.ae_journal.specs.States.{IsSaturated};
ghost use Rattle.ae_journal.specs.declared.systems.System.{System};
ghost use Rattle.ae_open_states.specs.Finished.{IsFinished};
ghost use Rattle.ae_open_states.specs.Shown.{shown};
ghost use Rattle.ae_rules.specs.Clauses.{Clause};
ghost use Rattle.ae_store.specs.Stores.{Stored};

/// What a search for a goal shows is a saturated state, where each clause has a true literal and the theory nothing left to do.
pub fn finished_searches_are_saturated()
    ensures { (p : Problem) (g : ℕ) (s : Stored) (t : List Assigned) (clauses : List Clause) (y : System) → IsFinished p g s t clauses y → (bound : ℕ) → IsSaturated p g (shown t y) bound }
{}
