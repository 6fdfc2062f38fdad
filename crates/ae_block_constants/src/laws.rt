//! Laws of the constants of blocks. This function does nothing: its contract is a theorem.
ghost use Rattle.std.specs.Prelude.{ℕ, ◌+◌, ◌≡◌, ◌≢◌, List, [], ◌∷◌, ◌++◌};
ghost use Rattle.std.specs.List.{Contains};
ghost use Rattle.ae_block_constants.specs.Blocks.{variables, AreApart, Agrees, HaveOwnNumbers};
ghost use Rattle.ae_block_constants.specs.declared.opened.Opened.{Opened};
ghost use Rattle.ae_core.specs.declared.formulas.Formula.{Formula};
ghost use Rattle.ae_journal.specs.Legal.{HaveOwnConstants};
ghost use Rattle.ae_journal.specs.Standing.{Setting};
ghost use Rattle.ae_journal.specs.declared.lines.Line.{Line};

/// The blocks that a search opens have constants of their own.
pub fn blocks_have_own_constants()
    // All formulas can be numbered, those that were opened as they are, so that no constant belongs to two of them.
    ensures numbering { (next : ℕ) (opened : List Opened) → AreApart next opened → (fresh : Formula → ℕ) × Agrees opened fresh × HaveOwnNumbers fresh }
    // So no constant of a journal belongs to two formulas.
    ensures journals { (x : Setting) (js : List Line) → HaveOwnNumbers x.fresh → HaveOwnConstants x js }
    // It begins without a block, and one that isn't opened yet takes the next constants.
    ensures none { (next : ℕ) → AreApart next [] }
    ensures another { (next : ℕ) (opened : List Opened) (o : Opened) → AreApart next opened → o.first ≡ next → ((e : Opened) → Contains opened e → e.formula ≢ o.formula) →
        AreApart (next + variables o.formula) (opened ++ o ∷ []) }
{}
