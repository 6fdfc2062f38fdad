//! Laws of the ground fragment. These functions do nothing: each one's contract is a theorem.
ghost use Rattle.std.specs.Prelude.{ℕ, ◌≤◌, ◌≡◌, List, [], ◌∷◌, true, length, slice_get, count_by, Some};
ghost use Rattle.std.specs.List.{Contains};
ghost use Rattle.ae_base.specs.Options.{known};
ghost use Rattle.ae_core.specs.Signatures.{IsLawful};
ghost use Rattle.ae_core.specs.Sorts.{sort_of};
ghost use Rattle.ae_core.specs.declared.formulas.Formula.{Formula};
ghost use Rattle.ae_core.specs.declared.problems.Problem.{Problem};
ghost use Rattle.ae_core.specs.declared.problems.Signature.{Signature};
ghost use Rattle.ae_core.specs.declared.proofs.EqLine.{EqLine};
ghost use Rattle.ae_core.specs.declared.proofs.Proof.{Proof};
ghost use Rattle.ae_core.specs.declared.terms.Head.{Head};
ghost use Rattle.ae_core.specs.declared.terms.Sort.{Sort, out-Sort};
ghost use Rattle.ae_core.specs.declared.terms.Term.{Term, Apply};
ghost use Rattle.ae_ground_laws.specs.Terms.{AreGroundNames, IsGroundName};
ghost use Rattle.ae_journal.specs.Ground.{IsFragmentTerm, IsGround, IsGroundEquation, IsGroundProof, MayStand};
ghost use Rattle.ae_journal.specs.Standing.{parts_of};
ghost use Rattle.ae_journal.specs.Systems.{IsJoin};
ghost use Rattle.ae_reach.specs.Budget.{IsFirst, Occurs, HasNoSymbols, HoldsTerms};
ghost use Rattle.ae_reach.specs.Reach.{IsInReach};
ghost use Rattle.ae_rules.specs.Built.{IsBuilt, IsBuiltEquation};
ghost use Rattle.ae_rules.specs.Instances.{choices_of};
ghost use Rattle.ae_rules.specs.Linear.{is_plain};
ghost use Rattle.ae_rules.specs.Lines.{fact_ok, states};
ghost use Rattle.ae_trim.specs.Trimmed.{IsTrimmed};

/// The hypotheses of a goal of the ground fragment, the goal, and the body of its block with constants put are formulas of the fragment or the goal
/// itself, and so are their parts.
pub fn first_formulas_are_ground()
    ensures first { (p : Problem) (g : ℕ) (f : Formula) → IsGround p g → IsInReach p g → IsFirst p g f → MayStand p g f }
    ensures parts { (p : Problem) (g : ℕ) (f h : Formula) → IsGround p g → MayStand p g f → Contains (parts_of f) h → MayStand p g h }
{}

/// Each term that occurs in a goal of the ground fragment is plain.
pub fn occurring_terms_are_plain()
    ensures { (p : Problem) (g : ℕ) (t : Term) → IsGround p g → Occurs p g t → is_plain t ≡ true }
{}

/// Each term that occurs in a goal of the ground fragment in reach of a lawful problem is of the fragment where it is well sorted, and so is each
/// constructor of its sort, which has that sort.
pub fn occurring_terms_are_ground()
    ensures terms { (p : Problem) (g : ℕ) (t : Term) → IsLawful p.signature → IsInReach p g → IsGround p g → Occurs p g t → IsGroundName p.signature t }
    ensures constructors { (sig : Signature) (t : Term) (s : Sort) (hs : List Head) (h : Head) → IsLawful sig → sort_of sig t ≡ Some s → choices_of sig (out-Sort s) ≡ Some hs → Contains hs h →
        IsGroundName sig (Apply h [] []) × (sort_of sig (Apply h [] []) ≡ Some s) }
{}

/// What is built of names of the ground fragment is of the fragment where it is well sorted, and lines over such terms are lines of a ground proof.
pub fn built_lines_are_ground()
    ensures terms { (sig : Signature) (ts : List Term) (t : Term) (s : Sort) → IsLawful sig → AreGroundNames sig ts → IsBuilt sig ts t → sort_of sig t ≡ Some s → IsFragmentTerm sig [] t }
    ensures lines { (sig : Signature) (ts : List Term) (l : EqLine) → IsLawful sig → AreGroundNames sig ts → fact_ok sig (states l) ≡ true → IsBuiltEquation sig ts l →
        IsGroundEquation sig l }
{}

/// Of names that occur in a goal of the ground fragment none joins terms where no AC symbol occurs, and those that aren't predicates' applications are at
/// most as many as any terms that hold all that occur.
pub fn occurring_names_are_bounded()
    ensures joins { (p : Problem) (g : ℕ) (ts : List Term) → IsGround p g → HasNoSymbols p g → ((t : Term) → Contains ts t → Occurs p g t) →
        (h : Head) (ss : List Sort) (a b : Term) → Contains ts (Apply h ss (a ∷ b ∷ [])) → ¬ (IsJoin p.signature h a b) }
    ensures count { (p : Problem) (g : ℕ) (ts us : List Term) → ((i j : ℕ) (t : Term) → slice_get ts i ≡ Some t → slice_get ts j ≡ Some t → i ≡ j) → ((t : Term) → Contains ts t → Occurs p g t) →
        HoldsTerms p g us → count_by (λ t. known (sort_of p.signature t)) ts ≤ length us }
{}

/// A trimmed ground proof is one.
pub fn trimmed_proofs_are_ground()
    ensures { (p : Problem) (g : ℕ) (proof trimmed : Proof) → IsGroundProof p g proof → IsTrimmed proof trimmed → IsGroundProof p g trimmed }
{}
