//! Laws of parts. This function does nothing: its contract is a theorem.
ghost use Rattle.std.specs.Prelude.{ℕ, List};
ghost use Rattle.ae_core.specs.declared.problems.Problem.{Problem};
ghost use Rattle.ae_journal.specs.Ground.{IsGround};
ghost use Rattle.ae_search_options.specs.declared.limits.Limits.{Limits};
ghost use Rattle.ae_goal_parts.specs.Ground.{IsGroundPart};
ghost use Rattle.ae_goal_parts.specs.Parts.{IsPart};

/// Of a goal of the ground fragment a part either shows a ground proof; or a saturated state, and then no ground proof exists; or it names a limit.
pub fn ground_parts()
    ensures { (p : Problem) (k : ℕ) (limits : Limits) (bytes : List ℕ) → IsGround p k → IsPart p k limits bytes → IsGroundPart p k limits bytes }
{}
