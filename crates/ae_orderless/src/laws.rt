//! Laws of formulas without inequality. These functions do nothing: each one's contract is a theorem.
ghost use Rattle.std.specs.Prelude.{ℕ, ◌≡◌, Bool, true, List, None, Some};
ghost use Rattle.std.specs.List.{Contains};
ghost use Rattle.ae_core.specs.Putting.{instance, put_formula};
ghost use Rattle.ae_core.specs.declared.formulas.Formula.{Formula, out-Formula};
ghost use Rattle.ae_core.specs.declared.formulas.Lit.{Lit};
ghost use Rattle.ae_core.specs.declared.problems.Problem.{Problem};
ghost use Rattle.ae_core.specs.declared.problems.Signature.{Signature};
ghost use Rattle.ae_core.specs.declared.terms.Sort.{Sort};
ghost use Rattle.ae_core.specs.declared.terms.Term.{Term};
ghost use Rattle.ae_journal.specs.Standing.{parts_of};
ghost use Rattle.ae_journal.specs.States.{inequality};
ghost use Rattle.ae_orderless.specs.Orderless.{is_orderless, IsOrderlessGoal};
ghost use Rattle.ae_rules.specs.Clauses.{Clause, literal, row};
ghost use Rattle.ae_rules.specs.Derivations.{goal_body};
ghost use Rattle.ae_rules.specs.Instances.{exhaustion, fresh_clause, hypothesis, instance_clause};

/// Sorts that are put for the type variables of a formula, and terms that are put for the variables of a block, bring no inequality.
pub fn putting_keeps_orderless()
    ensures sorts { (ss : List Sort) (f : Formula) → is_orderless (instance ss f) ≡ is_orderless f }
    ensures terms { (ts : List Term) (f : Formula) → is_orderless (put_formula ts f) ≡ is_orderless f }
{}

/// No inequality stands in the parts of a formula without one.
pub fn parts_stay_orderless()
    ensures { (f h : Formula) → is_orderless f ≡ true → Contains (parts_of f) h → is_orderless h ≡ true }
{}

/// A literal without inequality is none.
pub fn orderless_formulas_are_no_orders()
    ensures { (l : Lit) → is_orderless l.formula ≡ true → inequality l ≡ None }
{}

/// No inequality stands in the clauses that a formula without one gives, nor in those of enumerations.
pub fn clauses_stay_orderless()
    ensures literals { (f : Formula) (sign : Bool) → is_orderless f ≡ true → is_orderless (literal sign f).formula ≡ true }
    ensures rows { (f : Formula) (r : ℕ) (c : Clause) (l : Lit) → is_orderless f ≡ true → row r f ≡ Some c → Contains c l → is_orderless l.formula ≡ true }
    ensures instances { (sig : Signature) (f : Formula) (ts : List Term) (c : Clause) (l : Lit) → is_orderless f ≡ true → instance_clause sig f ts (out-Formula f) ≡ Some c → Contains c l → is_orderless l.formula ≡ true }
    ensures constants { (f : Formula) (m : ℕ) (c : Clause) (l : Lit) → is_orderless f ≡ true → fresh_clause f m (out-Formula f) ≡ Some c → Contains c l → is_orderless l.formula ≡ true }
    ensures choices { (sig : Signature) (t : Term) (c : Clause) (l : Lit) → exhaustion sig t ≡ Some c → Contains c l → is_orderless l.formula ≡ true }
{}

/// No inequality stands in a hypothesis of a goal without one, whatever sorts are put in it, nor in the goal.
pub fn orderless_goals_give_orderless_formulas()
    ensures hypotheses { (p : Problem) (g k : ℕ) (ss : List Sort) (f : Formula) → IsOrderlessGoal p g → hypothesis p g k ss ≡ Some f → is_orderless f ≡ true }
    ensures goals { (p : Problem) (g : ℕ) (f : Formula) → IsOrderlessGoal p g → goal_body p g ≡ Some f → is_orderless f ≡ true }
{}
