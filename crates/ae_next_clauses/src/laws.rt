//! Laws of what may come next in a search. These functions do nothing: their contracts are theorems.
ghost use Rattle.std.specs.Prelude.{◌≡◌, ◌∷◌, ◌++◌, [], ℕ, List, Some};
ghost use Rattle.std.specs.List.{Contains};
ghost use Rattle.ae_block_constants.specs.declared.opened.Opened.{Opened};
ghost use Rattle.ae_core.specs.declared.formulas.Formula.{Formula};
ghost use Rattle.ae_core.specs.declared.formulas.Lit.{Lit};
ghost use Rattle.ae_core.specs.declared.problems.Problem.{Problem};
ghost use Rattle.ae_core.specs.declared.proofs.ClauseLine.{ClauseLine};
ghost use Rattle.ae_core.specs.declared.proofs.ClauseLine.TheVariants as clause_line;
ghost use Rattle.ae_core.specs.declared.terms.Term.{Term};
ghost use Rattle.ae_goal_names.specs.Named.{HasNamed, clause_terms};
ghost use Rattle.ae_journal.specs.Legal.{IsLegalLine};
ghost use Rattle.ae_journal.specs.Standing.{Setting, IsEntered, IsFormula};
ghost use Rattle.ae_journal.specs.declared.lines.Line.{Line};
ghost use Rattle.ae_rules.specs.Clauses.{Clause};
ghost use Rattle.ae_rules.specs.Derivations.{conclusion, IsAllowed};
ghost use Rattle.ae_searching.specs.Steps.{Grows, IsStatedBy, MayBring, MayCome};
ghost use Rattle.ae_searching.specs.Told.{IsToldIn};
ghost use Rattle.ae_store.specs.Stores.{Stored};
ghost use Rattle.ae_theory.specs.Names.{AreNamed};

/// Where the terms of a clause over formulas of the journal are named, each new term is a name of the journal, and the clause's terms have names.
pub fn named_terms_grow()
    ensures grows { (p : Problem) (g : ℕ) (old new : Stored) (opened opened2 : List Opened) (js : List Line) (c : Clause) → p.signature ≡ old.signature → HasNamed old new (clause_terms c) →
        ((o : Opened) → Contains opened o → Contains opened2 o) → ((x : Setting) → IsToldIn p g new opened2 x → (m : Lit) → Contains c m → IsFormula x js m.formula) →
        Grows p g old new opened opened2 js }
    ensures named { (old new : Stored) (c : Clause) → HasNamed old new (clause_terms c) → (m : Lit) → Contains c m → AreNamed new m.formula }
{}

/// The clause of a block that was opened, that of the order of two names, and that of the constructors of a name may come next.
pub fn possible_lines_come()
    ensures fresh { (p : Problem) (g : ℕ) (s : Stored) (opened : List Opened) (lines : List ClauseLine) (js : List Line) (f : Formula) (first : ℕ) (c : Clause) →
        Contains opened (record { formula = f; first = first }) → ((x : Setting) → IsToldIn p g s opened x → IsFormula x js f) →
        IsAllowed p g lines (clause_line.Fresh f first) → conclusion p g (clause_line.Fresh f first) ≡ Some c → ((m : Lit) → Contains c m → AreNamed s m.formula) →
        MayCome p g s opened lines js (clause_line.Fresh f first) c }
    ensures order { (p : Problem) (g : ℕ) (s : Stored) (opened : List Opened) (lines : List ClauseLine) (js : List Line) (l r : Term) (c : Clause) →
        ((x : Setting) → IsToldIn p g s opened x → IsEntered x js l × IsEntered x js r) →
        conclusion p g (clause_line.Tri l r) ≡ Some c → ((m : Lit) → Contains c m → AreNamed s m.formula) → MayCome p g s opened lines js (clause_line.Tri l r) c }
    ensures choice { (p : Problem) (g : ℕ) (s : Stored) (opened : List Opened) (lines : List ClauseLine) (js : List Line) (t : Term) (c : Clause) →
        ((x : Setting) → IsToldIn p g s opened x → IsEntered x js t) →
        conclusion p g (clause_line.Exh t) ≡ Some c → ((m : Lit) → Contains c m → AreNamed s m.formula) → MayCome p g s opened lines js (clause_line.Exh t) c }
{}

/// An instance whose clause's terms have just been named may be brought, where its line is legal.
pub fn instances_come()
    ensures { (p : Problem) (g bound : ℕ) (old new : Stored) (opened : List Opened) (js : List Line) (j : Line) (l : ClauseLine) (c : Clause) → p.signature ≡ old.signature →
        HasNamed old new (clause_terms c) → IsStatedBy j l → conclusion p g l ≡ Some c → ((x : Setting) → IsToldIn p g new opened x → IsLegalLine x bound js j) →
        MayBring p g bound old new opened js j l c }
{}
