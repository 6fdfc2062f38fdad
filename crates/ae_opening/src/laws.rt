//! Laws of opening blocks. This function does nothing: its contract is a theorem.
ghost use Rattle.std.specs.Prelude.{ℕ, ◌<◌, ◌≡◌, true, false, List, [], ◌∷◌, ◌++◌, Some};
ghost use Rattle.std.specs.List.{Contains};
ghost use Rattle.ae_block_constants.specs.Blocks.{AreApart};
ghost use Rattle.ae_block_constants.specs.declared.opened.Opened.{Opened};
ghost use Rattle.ae_block_counts.specs.Counts.{blocks_in, quantifiers_left};
ghost use Rattle.ae_core.specs.Sorts.{formula_ok};
ghost use Rattle.ae_core.specs.declared.formulas.Formula.{Formula, out-Formula};
ghost use Rattle.ae_core.specs.declared.formulas.Lit.{Lit};
ghost use Rattle.ae_core.specs.declared.formulas.Quant.{Quant};
ghost use Rattle.ae_core.specs.declared.problems.Problem.{Problem};
ghost use Rattle.ae_core.specs.declared.proofs.ClauseLine.{ClauseLine};
ghost use Rattle.ae_journal.specs.Standing.{Setting, IsFormula, IsPossible};
ghost use Rattle.ae_journal.specs.States.{quant_of, is_universal};
ghost use Rattle.ae_journal.specs.declared.lines.Line.{Line};
ghost use Rattle.ae_new_constants.specs.Below.{IsClauseBelow, IsFormulaBelow, AreLinesBelow};
ghost use Rattle.ae_opening.specs.Asking.{asks_for_terms, IsOpened};
ghost use Rattle.ae_opening.specs.Opens.{Opens};
ghost use Rattle.ae_rules.specs.Clauses.{Clause};
ghost use Rattle.ae_rules.specs.Derivations.{conclusion, IsAllowed};

/// What opening a block keeps, and that it goes on.
pub fn opened_blocks_are_stated()
    // The line is allowed behind lines whose constants are below the next one, and so are they behind it.
    ensures allowed { (p : Problem) (g n m : ℕ) (f : Formula) (old new : List Opened) (l : ClauseLine) (c : Clause) (lines : List ClauseLine) → Opens f n m old new l c → AreLinesBelow p g n lines → IsFormulaBelow n f →
        formula_ok p.signature f ≡ true → IsAllowed p g lines l × (conclusion p g l ≡ Some c) × AreLinesBelow p g m (lines ++ l ∷ []) × IsClauseBelow m c }
    // No constant is of two blocks.
    ensures apart { (f : Formula) (n m : ℕ) (old new : List Opened) (l : ClauseLine) (c : Clause) → Opens f n m old new l c → AreApart n old → ¬ IsOpened old f → AreApart m new }
    // In a journal whose constants are these the clause is a possible one, over its formulas.
    ensures possible { (x : Setting) (js : List Line) (f : Formula) (n m : ℕ) (old new : List Opened) (l : ClauseLine) (c : Clause) → Opens f n m old new l c → IsFormula x js f → x.fresh f ≡ n →
        IsPossible x js c × ((k : Lit) → Contains c k → IsFormula x js k.formula) }
    // Fewer quantifiers are left.
    ensures falls { (clauses : List Clause) (f : Formula) (n m : ℕ) (old new : List Opened) (l : ClauseLine) (c : Clause) → Opens f n m old new l c → Contains (blocks_in clauses) f → ¬ IsOpened old f →
        quantifiers_left new (clauses ++ c ∷ []) < quantifiers_left old clauses }
    // A literal asks for terms where it is a block and isn't universal.
    ensures asking { (k : Lit) (q : Quant) → is_universal k ≡ false → quant_of (out-Formula k.formula) ≡ Some q → asks_for_terms k ≡ true }
    ensures asked { (k : Lit) → asks_for_terms k ≡ true → (is_universal k ≡ false) × (q : Quant) × (quant_of (out-Formula k.formula) ≡ Some q) }
{}
