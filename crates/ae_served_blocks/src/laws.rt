//! Laws of blocks that were opened. This function does nothing: its contract is a theorem.
ghost use Rattle.std.specs.Prelude.{ℕ, ◌≡◌, true, List};
ghost use Rattle.std.specs.List.{Contains};
ghost use Rattle.ae_block_constants.specs.Blocks.{Agrees};
ghost use Rattle.ae_block_constants.specs.declared.opened.Opened.{Opened};
ghost use Rattle.ae_core.specs.Sorts.{formula_ok};
ghost use Rattle.ae_core.specs.declared.formulas.Formula.{Formula};
ghost use Rattle.ae_core.specs.declared.formulas.Lit.{Lit};
ghost use Rattle.ae_core.specs.declared.problems.Problem.{Problem};
ghost use Rattle.ae_explain.specs.Trail.{Apart};
ghost use Rattle.ae_explain.specs.declared.trail.Assigned.{Assigned};
ghost use Rattle.ae_open_states.specs.Shown.{trail_literals};
ghost use Rattle.ae_opening.specs.Asking.{AllServed};
ghost use Rattle.ae_rules.specs.Clauses.{Clause};
ghost use Rattle.ae_sat.specs.Search.{IsOpen};
ghost use Rattle.ae_served_blocks.specs.Served.{opened_body, HaveClauses, AreServed};

/// In an open trail whose blocks are all opened, and whose clauses have the one of each block that was opened, the literal of the body stands with each literal
/// that asks for terms.
pub fn opened_blocks_are_served()
    ensures { (p : Problem) (t : List Assigned) (clauses : List Clause) (opened : List Opened) (fresh : Formula → ℕ) → Agrees opened fresh → HaveClauses opened clauses → AllServed t opened → Apart t →
        IsOpen t clauses → ((l : Lit) → Contains (trail_literals t) l → formula_ok p.signature l.formula ≡ true) → AreServed p t (opened_body fresh) }
{}
