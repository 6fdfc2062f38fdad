//! Laws of searches that have nothing left to do. This function does nothing: its contract is a theorem.
ghost use Rattle.std.specs.Prelude.{ℕ, List};
ghost use Rattle.ae_between_rounds.specs.Finished.{IsFinishedAt, shown_at};
ghost use Rattle.ae_between_rounds.specs.declared.search.Search.{Search};
ghost use Rattle.ae_core.specs.declared.problems.Problem.{Problem};
ghost use Rattle.ae_journal.specs.States.{IsSaturated};
ghost use Rattle.ae_journal.specs.declared.systems.PointAt.{PointAt};

/// Where each clause has a true literal, the theory has nothing left to do, no block asks for terms, the inequalities have a point and no instance is owed, what
/// the search shows is a saturated state.
pub fn finished_rounds_are_saturated()
    ensures { (p : Problem) (g bound : ℕ) (o : Search) (point : List PointAt) → IsFinishedAt p g bound o point → IsSaturated p g (shown_at o point) bound }
{}
