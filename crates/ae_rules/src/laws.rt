//! Laws of the definitions. These functions do nothing: each one's contract is a theorem.
ghost use Rattle.std.specs.Prelude.{◌≡◌, ◌↔◌, ℕ, Bool, true, not, List, map, Some};
ghost use Rattle.std.specs.List.{list_all};
ghost use Rattle.ae_core.specs.Sorts.{sort_of, term_ok};
ghost use Rattle.ae_rules.specs.Linear.{is_plain};
ghost use Rattle.ae_rules.specs.Lines.{Fact, fact_ok, plain_ok, Among, Equations, Follows, FollowsAsWritten, Conseq, PlainConseq};
ghost use Rattle.ae_rules.specs.Clauses.{Clause, opposite, refutes};
ghost use Rattle.ae_rules.specs.Valuations.{clause_holds, literal_holds, Where, Respects, Means, IsModel};
ghost use Rattle.ae_base.specs.Relations.{Pairwise};
ghost use Rattle.ae_rules.specs.Derivations.{IsContradictory, clause_ok, conclusion};
ghost use Rattle.ae_core.specs.declared.problems.Problem.{Problem};
ghost use Rattle.ae_core.specs.declared.proofs.ClauseLine.{ClauseLine};
ghost use Rattle.ae_core.specs.declared.proofs.Block.{Block};
ghost use Rattle.ae_core.specs.declared.problems.Signature.{Signature};
ghost use Rattle.ae_core.specs.declared.terms.Head.{Head};
ghost use Rattle.ae_core.specs.declared.terms.Sort.{Sort};
ghost use Rattle.ae_core.specs.declared.terms.Term.{Term, Apply};
ghost use Rattle.ae_core.specs.declared.formulas.Formula.{Formula};
ghost use Rattle.ae_core.specs.declared.formulas.Lit.{Lit};

/// A fact follows from hypotheses exactly where allowed lines state it.
pub fn follows_as_written()
    ensures { FollowsAsWritten }
{}

/// Consequence is an equivalence on well-sorted terms, and a well-sorted application stays equal where its
/// arguments are put for equal ones.
pub fn consequence_is_a_congruence()
    ensures sorted { (sig : Signature) (E : Term → Term → Bool) (s t : Term) → Conseq sig (Where E) s t → (term_ok sig s ≡ true) × (sort_of sig s ≡ sort_of sig t) }
    ensures given { (sig : Signature) (E : Term → Term → Bool) (s t : Term) → E s t ≡ true → term_ok sig s ≡ true → sort_of sig s ≡ sort_of sig t → Conseq sig (Where E) s t }
    ensures reflexive { (sig : Signature) (E : Term → Term → Bool) (s : Term) → term_ok sig s ≡ true → Conseq sig (Where E) s s }
    ensures symmetric { (sig : Signature) (E : Term → Term → Bool) (s t : Term) → Conseq sig (Where E) s t → Conseq sig (Where E) t s }
    ensures transitive { (sig : Signature) (E : Term → Term → Bool) (s m t : Term) → Conseq sig (Where E) s m → Conseq sig (Where E) m t → Conseq sig (Where E) s t }
    ensures congruent { (sig : Signature) (E : Term → Term → Bool) (h : Head) (ss : List Sort) (us vs : List Term) → Pairwise (Conseq sig (Where E)) us vs → term_ok sig (Apply h ss us) ≡ true → Conseq sig (Where E) (Apply h ss us) (Apply h ss vs) }
{}

/// Within the plain fragment consequence is the same: an equivalence on well-sorted plain terms, and a congruence
/// where both applications are plain.
pub fn plain_consequence_is_a_congruence()
    ensures consequence { (sig : Signature) (E : Term → Term → Bool) (s t : Term) → PlainConseq sig (Where E) s t → Conseq sig (Where E) s t × (is_plain s ≡ true) × (is_plain t ≡ true) }
    ensures reflexive { (sig : Signature) (E : Term → Term → Bool) (s : Term) → term_ok sig s ≡ true → is_plain s ≡ true → PlainConseq sig (Where E) s s }
    ensures symmetric { (sig : Signature) (E : Term → Term → Bool) (s t : Term) → PlainConseq sig (Where E) s t → PlainConseq sig (Where E) t s }
    ensures transitive { (sig : Signature) (E : Term → Term → Bool) (s m t : Term) → PlainConseq sig (Where E) s m → PlainConseq sig (Where E) m t → PlainConseq sig (Where E) s t }
    ensures congruent { (sig : Signature) (E : Term → Term → Bool) (h : Head) (ss : List Sort) (us vs : List Term) → Pairwise (PlainConseq sig (Where E)) us vs → term_ok sig (Apply h ss us) ≡ true → is_plain (Apply h ss us) ≡ true → is_plain (Apply h ss vs) ≡ true → PlainConseq sig (Where E) (Apply h ss us) (Apply h ss vs) }
{}

/// Values of terms that respect each rule respect all that follows, within the plain fragment too.
pub fn values_respect_consequence<V>()
    ensures all { (sig : Signature) (ok : Fact → Bool) (hyps : List Lit) (ev : Term → V) (le lt : V → V → Bool) → Respects sig ok (Among hyps) ev le lt → (f : Fact) → Follows sig ok (Among hyps) f → Means ev le lt f }
    ensures equal { (sig : Signature) (E : Term → Term → Bool) (ev : Term → V) (le lt : V → V → Bool) → Respects sig (fact_ok sig) (Equations (Where E)) ev le lt → (s t : Term) → Conseq sig (Where E) s t → ev s ≡ ev t }
    ensures plain { (sig : Signature) (E : Term → Term → Bool) (ev : Term → V) (le lt : V → V → Bool) → Respects sig (plain_ok sig) (Equations (Where E)) ev le lt → (s t : Term) → PlainConseq sig (Where E) s t → ev s ≡ ev t }
{}

/// Unit propagation is sound: where formulas have truth values and the clauses hold, one of the literals holds that they
/// refute to be all false.
pub fn propagation_is_sound()
    ensures { (v : Formula → Bool) (literals : List Lit) (clauses : List Clause) → refutes literals clauses ≡ true → list_all (clause_holds v) clauses ≡ true → clause_holds v literals ≡ true }
{}

/// The clause of a block, of the opposites of its hypotheses, holds exactly where these don't all hold.
pub fn blocks_deny_their_hypotheses()
    ensures { (v : Formula → Bool) (hyps : List Lit) → clause_holds v (map opposite hyps) ≡ not (list_all (literal_holds v) hyps) }
{}

/// In a model, which is truth of formulas and values of terms that respect each rule and ending, the clause of each
/// allowed block holds.
pub fn blocks_hold<V>()
    ensures { (sig : Signature) (v : Formula → Bool) (ev : Term → V) (le lt : V → V → Bool) → IsModel sig v ev le lt → (b : Block) → IsContradictory sig b → clause_holds v (map opposite b.deriv.hyps) ≡ true }
{}

/// Each formula of the clause that a line states is closed and well sorted.
pub fn stated_formulas_are_sorted()
    ensures { (p : Problem) (g : ℕ) (l : ClauseLine) (c : Clause) → conclusion p g l ≡ Some c → clause_ok p.signature c ≡ true }
{}
