//! Laws of numerals in lowest terms. These functions do nothing: each one's contract is a theorem.
ghost use Rattle.std.specs.Prelude.{ℕ, ◌≡◌, Bool, List, Some};
ghost use Rattle.std.specs.List.{AllByRecursion, Contains};
ghost use Rattle.ae_core.specs.Putting.{instance, put_formula};
ghost use Rattle.ae_core.specs.declared.formulas.Formula.{Formula, out-Formula};
ghost use Rattle.ae_core.specs.declared.formulas.Lit.{Lit};
ghost use Rattle.ae_core.specs.declared.problems.Problem.{Problem};
ghost use Rattle.ae_core.specs.declared.problems.Signature.{Signature};
ghost use Rattle.ae_core.specs.declared.terms.Head.{Head};
ghost use Rattle.ae_core.specs.declared.terms.Sort.{Sort};
ghost use Rattle.ae_core.specs.declared.terms.Term.{Term, Apply};
ghost use Rattle.ae_journal.specs.Standing.{parts_of};
ghost use Rattle.ae_journal.specs.States.{outside};
ghost use Rattle.ae_journal.specs.Systems.{field_terms};
ghost use Rattle.ae_rules.specs.Clauses.{Clause, literal, row};
ghost use Rattle.ae_rules.specs.Derivations.{goal_body};
ghost use Rattle.ae_rules.specs.Instances.{exhaustion, fresh_clause, hypothesis, instance_clause, trichotomy};
ghost use Rattle.ae_writable.specs.Numbers.{HasLowestNumerals};
ghost use Rattle.ae_numerals_kept.specs.Lowest.{IsLowest, IsLowestTerm};

/// Where sorts are put for the type variables of a formula, its numerals stay in lowest terms, and where terms with such numerals are put for the variables of a block.
pub fn putting_keeps_numerals()
    ensures sorts { (ss : List Sort) (f : Formula) → IsLowest f → IsLowest (instance ss f) }
    ensures terms { (ts : List Term) (f : Formula) → AllByRecursion IsLowestTerm ts → IsLowest f → IsLowest (put_formula ts f) }
{}

/// The numerals of a part are in lowest terms where those of the formula are, and so are those of a term that stands in it outside quantified parts, of an argument, and
/// of a field.
pub fn parts_keep_numerals()
    ensures parts { (f h : Formula) → IsLowest f → Contains (parts_of f) h → IsLowest h }
    ensures outside { (f : Formula) (t : Term) → IsLowest f → Contains (outside f) t → IsLowestTerm t }
    ensures arguments { (h : Head) (ss : List Sort) (us : List Term) (t : Term) → IsLowestTerm (Apply h ss us) → Contains us t → IsLowestTerm t }
    ensures fields { (s : Sort) (u t : Term) (n : ℕ) → IsLowestTerm u → Contains (field_terms s u n) t → IsLowestTerm t }
{}

/// The literals of each clause that formulas and terms with numerals in lowest terms give have such numerals.
pub fn clauses_keep_numerals()
    ensures literals { (f : Formula) (sign : Bool) → IsLowest f → IsLowest (literal sign f).formula }
    ensures rows { (f : Formula) (r : ℕ) (c : Clause) (l : Lit) → IsLowest f → row r f ≡ Some c → Contains c l → IsLowest l.formula }
    ensures instances { (sig : Signature) (f : Formula) (ts : List Term) (c : Clause) (l : Lit) → IsLowest f → AllByRecursion IsLowestTerm ts → instance_clause sig f ts (out-Formula f) ≡ Some c → Contains c l → IsLowest l.formula }
    ensures constants { (f : Formula) (m : ℕ) (c : Clause) (l : Lit) → IsLowest f → fresh_clause f m (out-Formula f) ≡ Some c → Contains c l → IsLowest l.formula }
    ensures choices { (sig : Signature) (t : Term) (c : Clause) (l : Lit) → IsLowestTerm t → exhaustion sig t ≡ Some c → Contains c l → IsLowest l.formula }
    ensures orders { (sig : Signature) (s t : Term) (c : Clause) (l : Lit) → IsLowestTerm s → IsLowestTerm t → trichotomy sig s t ≡ Some c → Contains c l → IsLowest l.formula }
{}

/// A hypothesis with sorts, and a goal, of a problem whose numerals are in lowest terms have such numerals.
pub fn problems_keep_numerals()
    ensures hypotheses { (p : Problem) (g k : ℕ) (ss : List Sort) (f : Formula) → HasLowestNumerals p → hypothesis p g k ss ≡ Some f → IsLowest f }
    ensures goals { (p : Problem) (g : ℕ) (f : Formula) → HasLowestNumerals p → goal_body p g ≡ Some f → IsLowest f }
{}
