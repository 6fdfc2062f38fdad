//! Laws of open trails. This function does nothing: its contract is a theorem.
ghost use Rattle.std.specs.Prelude.{ℕ, ◌≡◌, Bool, Some};
ghost use Rattle.ae_between_rounds.specs.Between.{IsBetweenRounds};
ghost use Rattle.ae_between_rounds.specs.Finished.{IsOpenSearch};
ghost use Rattle.ae_between_rounds.specs.declared.search.Search.{Search};
ghost use Rattle.ae_core.specs.declared.formulas.Lit.{Lit};
ghost use Rattle.ae_core.specs.declared.problems.Problem.{Problem};
ghost use Rattle.ae_core.specs.declared.terms.Term.{Term};
ghost use Rattle.ae_filled_trails.specs.Ordered.{AreOrdered};
ghost use Rattle.ae_journal.specs.Standing.{MayStand, Setting};
ghost use Rattle.ae_journal.specs.States.{inequality};
ghost use Rattle.ae_opening.specs.Asking.{AllServed};
ghost use Rattle.ae_possible_literals.specs.Filled.{IsFilled};
ghost use Rattle.ae_propagation.specs.Settled.{Holds};
ghost use Rattle.ae_searching.specs.Told.{IsToldIn};

use ae_possible_literals::laws::what_may_stand_is_true;

/// Where nothing is left to do for the solver, each block is opened, and each two numbers that are neither equal nor the one below the other have the other below the
/// one, the trail has what the possible clauses of the journal ask for; and so each inequality literal that may stand is true.
pub fn open_trails_are_filled()
    ensures filled { (p : Problem) (g bound : ℕ) (o : Search) → IsBetweenRounds p g bound o → IsOpenSearch o → AllServed o.solver.propagation.trail o.blocks.opened →
        AreOrdered o.solver.propagation.trail → (x : Setting) → IsToldIn p g o.store o.blocks.opened x →
        IsFilled x o.journal.lines o.solver.propagation.trail o.solver.propagation.clauses }
    ensures inequalities { (p : Problem) (g bound : ℕ) (o : Search) → IsBetweenRounds p g bound o → IsOpenSearch o → AllServed o.solver.propagation.trail o.blocks.opened →
        AreOrdered o.solver.propagation.trail → (x : Setting) → IsToldIn p g o.store o.blocks.opened x →
        (l : Lit) (s u : Term) (strict : Bool) → MayStand x o.journal.lines l → inequality l ≡ Some (s, u, strict) → Holds o.solver.propagation.trail l }
{
    what_may_stand_is_true();
}
