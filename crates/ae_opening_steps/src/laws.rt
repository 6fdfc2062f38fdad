//! Laws of the steps that open blocks. This function does nothing: its contract is a theorem.
ghost use Rattle.std.specs.Prelude.{ℕ, ◌<◌, ◌≡◌, true, List, [], ◌∷◌, length, None};
ghost use Rattle.std.specs.List.{Contains};
ghost use Rattle.ae_block_constants.specs.declared.opened.Opened.{Opened};
ghost use Rattle.ae_core.specs.Sorts.{formula_ok};
ghost use Rattle.ae_core.specs.declared.formulas.Formula.{Formula};
ghost use Rattle.ae_core.specs.declared.problems.Problem.{Problem};
ghost use Rattle.ae_core.specs.declared.proofs.ClauseLine.{ClauseLine};
ghost use Rattle.ae_explain.specs.Trail.{at, IsLawful};
ghost use Rattle.ae_explain.specs.declared.trail.Assigned.{Assigned};
ghost use Rattle.ae_goal_names.specs.Named.{all_terms, HasNamed};
ghost use Rattle.ae_journal.specs.Standing.{IsFormula, Setting};
ghost use Rattle.ae_journal.specs.declared.lines.Line.{Line};
ghost use Rattle.ae_new_constants.specs.Below.{IsFormulaBelow, AreLinesBelow};
ghost use Rattle.ae_opening.specs.Opens.{Opens};
ghost use Rattle.ae_opening_steps.specs.Ready.{IsReady};
ghost use Rattle.ae_rules.specs.Clauses.{Clause};
ghost use Rattle.ae_sat.specs.Search.{IsStated};
ghost use Rattle.ae_sat.specs.Standing.{IsOneOf};
ghost use Rattle.ae_searching.specs.Steps.{Grows, MayCome};
ghost use Rattle.ae_searching.specs.Told.{IsToldIn};
ghost use Rattle.ae_store.specs.Stores.{Stored};

/// Each literal of a search's trail is ready to be opened; and when its block is opened and the terms of the block's clause have names, the search has grown, and the line of the block may
/// come next.
pub fn opened_blocks_may_come()
    ensures ready { (p : Problem) (g n : ℕ) (t : List Assigned) (lines : List ClauseLine) (clauses : List Clause) (places : List ℕ) → IsStated p g lines clauses places → AreLinesBelow p g n lines → IsLawful t clauses →
        ((j : ℕ) → j < length t → (at t j).by ≡ None → (c : Clause) × IsOneOf clauses c × Contains c (at t j).lit) → (j : ℕ) → j < length t → IsReady p n clauses (at t j).lit.formula }
    ensures step { (p : Problem) (g n m : ℕ) (s s2 : Stored) (old new : List Opened) (f : Formula) (l : ClauseLine) (c : Clause) (lines : List ClauseLine) (js : List Line) → p.signature ≡ s.signature →
        Opens f n m old new l c → AreLinesBelow p g n lines → IsFormulaBelow n f → formula_ok p.signature f ≡ true → HasNamed s s2 (all_terms (c ∷ [])) → ((x : Setting) → IsToldIn p g s old x → IsFormula x js f) →
        Grows p g s s2 old new js × MayCome p g s2 new lines js l c }
{}
