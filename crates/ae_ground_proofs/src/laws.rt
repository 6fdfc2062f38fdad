//! Laws of searches for goals of the ground fragment. These functions do nothing: each one's contract is a theorem.
ghost use Rattle.std.specs.Prelude.{ℕ, ◌≤◌, ◌≡◌, ◌⊎◌, List, [], ◌∷◌, length, count_by};
ghost use Rattle.std.specs.List.{AllByRecursion, Contains};
ghost use Rattle.ae_base.specs.Options.{known};
ghost use Rattle.ae_choice_clauses.specs.Choices.{AddsChoices};
ghost use Rattle.ae_core.specs.Signatures.{IsLawful};
ghost use Rattle.ae_core.specs.Sorts.{sort_of};
ghost use Rattle.ae_core.specs.declared.formulas.Formula.{Formula};
ghost use Rattle.ae_core.specs.declared.problems.Problem.{Problem};
ghost use Rattle.ae_core.specs.declared.proofs.ClauseLine.{ClauseLine};
ghost use Rattle.ae_core.specs.declared.proofs.Proof.{Proof};
ghost use Rattle.ae_core.specs.declared.terms.Head.{Head};
ghost use Rattle.ae_core.specs.declared.terms.Sort.{Sort};
ghost use Rattle.ae_core.specs.declared.terms.Term.{Term, Apply};
ghost use Rattle.ae_first_clauses.specs.First.{AreFirst};
ghost use Rattle.ae_goal_names.specs.Named.{HasNamed, all_terms};
ghost use Rattle.ae_ground_laws.specs.Terms.{AreGroundNames};
ghost use Rattle.ae_journal.specs.Ground.{IsGround, IsGroundProof, MayStand};
ghost use Rattle.ae_journal.specs.Systems.{IsJoin};
ghost use Rattle.ae_open_states.specs.Choices.{IsChoiceOf};
ghost use Rattle.ae_reach.specs.Budget.{Occurs, IsConjunctive, HasNoSymbols, HasNoEnumerations, HoldsTerms};
ghost use Rattle.ae_reach.specs.Reach.{IsInReach};
ghost use Rattle.ae_rules.specs.Clauses.{Clause};
ghost use Rattle.ae_rules.specs.Derivations.{Derives};
ghost use Rattle.ae_sat.specs.Apart.{AreConjunctive};
ghost use Rattle.ae_sat.specs.Lines.{AddsEquationsOver};
ghost use Rattle.ae_sat.specs.Search.{AllAmong, HasParts};
ghost use Rattle.ae_store.specs.Stores.{Stored};
ghost use Rattle.ae_store.specs.Terms.{HasOneName};
ghost use Rattle.ae_theory.specs.Names.{terms_in};

/// Where a store without names has named the terms of what a search begins with, and then the constructors of enumerations, each name occurs in the goal
/// or is a constructor of the sort of a term that occurs; and where the goal is of the ground fragment, the names are.
pub fn first_names_are_ground()
    ensures occur { (p : Problem) (g : ℕ) (firsts : List ClauseLine) (first : List Clause) (old before s : Stored) (lines : List ClauseLine) (clauses : List Clause) → AreFirst p g firsts first → old.signature ≡ p.signature → terms_in old ≡ [] →
        HasNamed old before (all_terms first) → AddsChoices p g before s firsts lines first clauses →
        (t : Term) → Contains (terms_in s) t → Occurs p g t ⊎ ((u : Term) × Occurs p g u × IsChoiceOf p.signature u t) }
    ensures ground { (p : Problem) (g : ℕ) (firsts : List ClauseLine) (first : List Clause) (old before s : Stored) (lines : List ClauseLine) (clauses : List Clause) → IsLawful p.signature → IsInReach p g → IsGround p g → AreFirst p g firsts first → old.signature ≡ p.signature → terms_in old ≡ [] →
        HasNamed old before (all_terms first) → AddsChoices p g before s firsts lines first clauses →
        AreGroundNames p.signature (terms_in s) }
{}

/// The formulas that a search for a goal of the ground fragment begins with are among formulas that may stand in a ground proof, with all their parts.
pub fn first_formulas_have_parts()
    ensures { (p : Problem) (g : ℕ) (firsts : List ClauseLine) (first : List Clause) (old before s : Stored) (lines : List ClauseLine) (clauses : List Clause) → IsLawful p.signature → IsInReach p g → IsGround p g → AreFirst p g firsts first → old.signature ≡ p.signature → terms_in old ≡ [] →
        HasNamed old before (all_terms first) → AddsChoices p g before s firsts lines first clauses →
        (fs : List Formula) × HasParts fs × AllAmong fs clauses × AllByRecursion (MayStand p g) fs }
{}

/// A derivation of a goal of the ground fragment, which goes on from the first lines by lines over the formulas that are there and over the names, is a
/// ground proof.
pub fn refutations_are_ground()
    ensures { (p : Problem) (g : ℕ) (firsts : List ClauseLine) (first : List Clause) (old before s : Stored) (lines : List ClauseLine) (clauses : List Clause) → IsLawful p.signature → IsInReach p g → IsGround p g → AreFirst p g firsts first → old.signature ≡ p.signature → terms_in old ≡ [] →
        HasNamed old before (all_terms first) → AddsChoices p g before s firsts lines first clauses →
        (proof : Proof) → ((fs : List Formula) → HasParts fs → AllAmong fs clauses → AddsEquationsOver s fs lines proof.lines) → Derives p g proof → IsGroundProof p g proof }
{}

/// Of the names that a search begins with none joins terms where no AC symbol occurs in the goal; and where no term of an enumeration occurs, those that
/// aren't predicates' applications are at most as many as any terms that hold all that occur.
pub fn names_are_bounded()
    ensures joins { (p : Problem) (g : ℕ) (firsts : List ClauseLine) (first : List Clause) (old before s : Stored) (lines : List ClauseLine) (clauses : List Clause) → IsGround p g → HasNoSymbols p g → AreFirst p g firsts first → old.signature ≡ p.signature → terms_in old ≡ [] →
        HasNamed old before (all_terms first) → AddsChoices p g before s firsts lines first clauses →
        (h : Head) (ss : List Sort) (a b : Term) → Contains (terms_in s) (Apply h ss (a ∷ b ∷ [])) → ¬ (IsJoin s.signature h a b) }
    ensures count { (p : Problem) (g : ℕ) (firsts : List ClauseLine) (first : List Clause) (old before s : Stored) (lines : List ClauseLine) (clauses : List Clause) → HasNoEnumerations p g → AreFirst p g firsts first → old.signature ≡ p.signature → terms_in old ≡ [] →
        HasNamed old before (all_terms first) → AddsChoices p g before s firsts lines first clauses →
        HasOneName (terms_in s) → (us : List Term) → HoldsTerms p g us → count_by (λ t. known (sort_of s.signature t)) (terms_in s) ≤ length us }
{}

/// A search for a goal that leaves nothing to choose, and in which no term of an enumeration occurs, begins with clauses that leave nothing to decide.
pub fn conjunctive_goals_begin_apart()
    ensures { (p : Problem) (g : ℕ) (firsts : List ClauseLine) (first : List Clause) (old before s : Stored) (lines : List ClauseLine) (clauses : List Clause) → IsConjunctive p g → HasNoEnumerations p g → AreFirst p g firsts first → old.signature ≡ p.signature → terms_in old ≡ [] →
        HasNamed old before (all_terms first) → AddsChoices p g before s firsts lines first clauses →
        AreConjunctive clauses }
{}
