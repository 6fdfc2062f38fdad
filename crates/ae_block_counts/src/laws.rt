//! Laws of the number of quantifiers that are left. This function does nothing: its contract is a theorem.
ghost use Rattle.std.specs.Prelude.{ℕ, ◌<◌, ◌≤◌, ◌≡◌, ◌≢◌, List, [], ◌∷◌, ◌++◌, Some};
ghost use Rattle.std.specs.List.{Contains};
ghost use Rattle.ae_block_constants.specs.declared.opened.Opened.{Opened};
ghost use Rattle.ae_block_counts.specs.Counts.{blocks_of, blocks_in, quantifiers_left};
ghost use Rattle.ae_core.specs.declared.formulas.Formula.{Formula, out-Formula};
ghost use Rattle.ae_core.specs.declared.formulas.Lit.{Lit};
ghost use Rattle.ae_core.specs.declared.formulas.Quant.{Quant};
ghost use Rattle.ae_journal.specs.Standing.{parts_of};
ghost use Rattle.ae_journal.specs.States.{quant_of};
ghost use Rattle.ae_rules.specs.Clauses.{Clause};
ghost use Rattle.ae_rules.specs.Instances.{fresh_clause};

/// The number of quantifiers that are left falls where a block of the clauses is opened, and doesn't rise where no new block comes in.
pub fn opening_falls()
    ensures opening { (opened : List Opened) (clauses : List Clause) (o : Opened) (c : Clause) → Contains (blocks_in clauses) o.formula → ((e : Opened) → Contains opened e → e.formula ≢ o.formula) →
        fresh_clause o.formula o.first (out-Formula o.formula) ≡ Some c → quantifiers_left (opened ++ o ∷ []) (clauses ++ c ∷ []) < quantifiers_left opened clauses }
    ensures same { (opened : List Opened) (old new : List Clause) → ((f : Formula) → Contains (blocks_in new) f → Contains (blocks_in old) f) → quantifiers_left opened new ≤ quantifiers_left opened old }
    // A literal's formula that is a block is one of those of the clauses.
    ensures blocks { (clauses : List Clause) (c : Clause) (l : Lit) (q : Quant) → Contains clauses c → Contains c l → quant_of (out-Formula l.formula) ≡ Some q → Contains (blocks_in clauses) l.formula }
    // The blocks of a part are those of the whole.
    ensures parts { (f h b : Formula) → Contains (parts_of f) h → Contains (blocks_of h) b → Contains (blocks_of f) b }
{}
