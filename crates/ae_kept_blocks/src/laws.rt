//! Laws of what is kept of blocks and of their constants. These functions do nothing: their contracts are theorems.
ghost use Rattle.std.specs.Prelude.{ℕ, ◌≤◌, ◌≡◌, ◌⊎◌, List};
ghost use Rattle.std.specs.List.{AllByRecursion, Contains};
ghost use Rattle.ae_block_constants.specs.declared.opened.Opened.{Opened};
ghost use Rattle.ae_block_counts.specs.Counts.{quantifiers_left};
ghost use Rattle.ae_core.specs.declared.formulas.Formula.{Formula};
ghost use Rattle.ae_core.specs.declared.formulas.Lit.{Lit};
ghost use Rattle.ae_core.specs.declared.problems.Problem.{Problem};
ghost use Rattle.ae_core.specs.declared.proofs.ClauseLine.{ClauseLine};
ghost use Rattle.ae_core.specs.declared.terms.Term.{Term};
ghost use Rattle.ae_goal_names.specs.Named.{all_terms, HasNamed};
ghost use Rattle.ae_journal.specs.Standing.{IsEntered, IsFormula, Setting};
ghost use Rattle.ae_journal.specs.declared.lines.Line.{Line};
ghost use Rattle.ae_kept_blocks.specs.Kept.{AreClausesBelow, GoesOnOver};
ghost use Rattle.ae_new_constants.specs.Below.{IsTermBelow, AreLinesBelow};
ghost use Rattle.ae_rules.specs.Clauses.{Clause};
ghost use Rattle.ae_sat.specs.Lines.{AddsLinesOver};
ghost use Rattle.ae_sat.specs.Search.{AllAmong, HasParts, IsStated};
ghost use Rattle.ae_store.specs.Stores.{Stored};
ghost use Rattle.ae_theory.specs.Names.{terms_in};

/// Where a run adds clauses over the formulas that are there and their parts, and lines over these and over the store's terms, the constants of the lines stay below a number,
/// and no more quantifiers are left.
pub fn runs_keep_blocks()
    // The constants of clauses are those of the lines that state them.
    ensures clauses { (p : Problem) (g n : ℕ) (lines : List ClauseLine) (clauses : List Clause) (places : List ℕ) → IsStated p g lines clauses places → AreLinesBelow p g n lines → AreClausesBelow n clauses }
    ensures lines { (p : Problem) (g n : ℕ) (s : Stored) (clauses : List Clause) (lines lines2 : List ClauseLine) → AreLinesBelow p g n lines → AreClausesBelow n clauses → AllByRecursion (IsTermBelow n) (terms_in s) →
        ((fs : List Formula) → HasParts fs → AllAmong fs clauses → AddsLinesOver s fs lines lines2) → AreLinesBelow p g n lines2 }
    ensures quantifiers { (opened : List Opened) (old new : List Clause) → GoesOnOver old new → quantifiers_left opened new ≤ quantifiers_left opened old }
{}

/// Where names are given to the terms of clauses, no other constants get names, and in a journal that has the formulas of the clauses the new names are names.
pub fn names_keep_constants()
    ensures below { (n : ℕ) (old new : Stored) (clauses : List Clause) → HasNamed old new (all_terms clauses) → AreClausesBelow n clauses → AllByRecursion (IsTermBelow n) (terms_in old) → AllByRecursion (IsTermBelow n) (terms_in new) }
    ensures entered { (x : Setting) (js : List Line) (old new : Stored) (clauses : List Clause) → x.problem.signature ≡ old.signature → HasNamed old new (all_terms clauses) →
        ((c : Clause) (l : Lit) → Contains clauses c → Contains c l → IsFormula x js l.formula) → (t : Term) → Contains (terms_in new) t → Contains (terms_in old) t ⊎ IsEntered x js t }
{}
