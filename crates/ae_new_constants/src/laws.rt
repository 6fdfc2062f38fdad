//! Laws of constants that are new. These functions do nothing: their contracts are theorems.
ghost use Rattle.std.specs.Prelude.{ℕ, ◌+◌, ◌≤◌, ◌≡◌, true, List, Some};
ghost use Rattle.std.specs.List.{AllByRecursion};
ghost use Rattle.ae_block_constants.specs.Blocks.{variables};
ghost use Rattle.ae_core.specs.Putting.{put_formula};
ghost use Rattle.ae_core.specs.Signatures.{IsLawfulProblem};
ghost use Rattle.ae_core.specs.Sorts.{formula_ok};
ghost use Rattle.ae_core.specs.declared.formulas.Formula.{Formula, out-Formula};
ghost use Rattle.ae_core.specs.declared.problems.Problem.{Problem};
ghost use Rattle.ae_core.specs.declared.problems.Signature.{Signature};
ghost use Rattle.ae_core.specs.declared.proofs.Block.{Block as BlockOf};
ghost use Rattle.ae_core.specs.declared.proofs.ClauseLine.{ClauseLine};
ghost use Rattle.ae_core.specs.declared.proofs.ClauseLine.TheVariants.{Hyp, Goal, Def, Inst, Fresh as FreshLine, Exh, Tri, Block, Rup};
ghost use Rattle.ae_core.specs.declared.proofs.EqLine.{EqLine};
ghost use Rattle.ae_core.specs.declared.terms.Head.{Head};
ghost use Rattle.ae_core.specs.declared.terms.Sort.{Sort};
ghost use Rattle.ae_core.specs.declared.terms.Term.{Term, Apply};
ghost use Rattle.ae_journal.specs.Standing.{parts_of};
ghost use Rattle.ae_journal.specs.States.{outside};
ghost use Rattle.ae_journal.specs.Systems.{field_terms};
ghost use Rattle.ae_new_constants.specs.Below.{AreBelow, IsTermBelow, IsFormulaBelow, IsClauseBelow, IsLineBelow, AreLinesBelow};
ghost use Rattle.ae_rules.specs.Built.{IsBuilt};
ghost use Rattle.ae_rules.specs.Clauses.{Clause};
ghost use Rattle.ae_rules.specs.Derivations.{conclusion, IsAllowed};
ghost use Rattle.ae_rules.specs.Instances.{fresh_clause};
ghost use Rattle.ae_rules.specs.Lines.{states};

/// Behind lines whose constants are below a number a block may take the constants from this number on.
pub fn constants_behind_are_new()
    ensures allowed { (p : Problem) (g n : ℕ) (lines : List ClauseLine) (f : Formula) (c : Clause) → AreLinesBelow p g n lines → IsFormulaBelow n f → formula_ok p.signature f ≡ true →
        fresh_clause f n (out-Formula f) ≡ Some c → IsAllowed p g lines (FreshLine f n) × (conclusion p g (FreshLine f n) ≡ Some c) }
    // The constants of this line are below the end of the block's.
    ensures behind { (p : Problem) (g n : ℕ) (f : Formula) → IsFormulaBelow n f → IsLineBelow p g (n + variables f) (FreshLine f n) }
    // What a line states has no others.
    ensures stated { (p : Problem) (g n : ℕ) (l : ClauseLine) (c : Clause) → IsLineBelow p g n l → conclusion p g l ≡ Some c → IsClauseBelow n c }
    ensures rising { (n m : ℕ) (ts : List Term) → AreBelow n ts → n ≤ m → AreBelow m ts }
{}

/// The constants of a line are below a number where those are that it is given. A lawful problem brings none.
pub fn lines_keep_constants_below()
    ensures hypothesis { (p : Problem) (g n k : ℕ) (ss : List Sort) → IsLawfulProblem p → IsLineBelow p g n (Hyp k ss) }
    ensures goal { (p : Problem) (g n : ℕ) → IsLawfulProblem p → IsLineBelow p g n Goal }
    ensures row { (p : Problem) (g n r : ℕ) (f : Formula) → IsFormulaBelow n f → IsLineBelow p g n (Def r f) }
    ensures instance { (p : Problem) (g n : ℕ) (f : Formula) (ts : List Term) → IsFormulaBelow n f → AllByRecursion (IsTermBelow n) ts → IsLineBelow p g n (Inst f ts) }
    ensures choice { (p : Problem) (g n : ℕ) (t : Term) → IsTermBelow n t → IsLineBelow p g n (Exh t) }
    ensures order { (p : Problem) (g n : ℕ) (s t : Term) → IsTermBelow n s → IsTermBelow n t → IsLineBelow p g n (Tri s t) }
    ensures block { (p : Problem) (g n : ℕ) (b : BlockOf) → IsClauseBelow n b.deriv.hyps →
        AllByRecursion (λ (l : EqLine). IsTermBelow n (states l).left × IsTermBelow n (states l).right) b.deriv.lines → IsLineBelow p g n (Block b) }
    ensures derived { (p : Problem) (g n : ℕ) (c : Clause) (hints : List ℕ) → IsClauseBelow n c → IsLineBelow p g n (Rup c hints) }
{}

/// The constants of parts, and of what is put together of terms, are no others.
pub fn parts_keep_constants_below()
    ensures parts { (n : ℕ) (f : Formula) → IsFormulaBelow n f → AllByRecursion (IsFormulaBelow n) (parts_of f) }
    ensures outside { (n : ℕ) (f : Formula) → IsFormulaBelow n f → AllByRecursion (IsTermBelow n) (outside f) }
    ensures arguments { (n : ℕ) (h : Head) (ss : List Sort) (us : List Term) → IsTermBelow n (Apply h ss us) → AllByRecursion (IsTermBelow n) us }
    ensures fields { (n k : ℕ) (s : Sort) (t : Term) → IsTermBelow n t → AllByRecursion (IsTermBelow n) (field_terms s t k) }
    ensures put { (n : ℕ) (ts : List Term) (f : Formula) → AllByRecursion (IsTermBelow n) ts → IsFormulaBelow n f → IsFormulaBelow n (put_formula ts f) }
    ensures built { (n : ℕ) (sig : Signature) (names : List Term) (u : Term) → AllByRecursion (IsTermBelow n) names → IsBuilt sig names u → IsTermBelow n u }
{}
