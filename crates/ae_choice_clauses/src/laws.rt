//! Laws of what a search begins with when the clauses of enumerations were added. These functions do nothing: each one's contract is a theorem.
ghost use Rattle.std.specs.Prelude.{ℕ, ◌<◌, ◌≡◌, ◌⊎◌, List, [], length, slice_index_or, Some};
ghost use Rattle.std.specs.List.{Contains};
ghost use Rattle.ae_choice_clauses.specs.Choices.{AddsChoices};
ghost use Rattle.ae_core.specs.Signatures.{IsLawful};
ghost use Rattle.ae_core.specs.declared.formulas.Formula.{Formula};
ghost use Rattle.ae_core.specs.declared.problems.Problem.{Problem};
ghost use Rattle.ae_core.specs.declared.proofs.ClauseLine.{ClauseLine};
ghost use Rattle.ae_core.specs.declared.terms.Term.{Term};
ghost use Rattle.ae_first_clauses.specs.First.{AreFirst, search_setting};
ghost use Rattle.ae_journal.specs.Standing.{IsEntered};
ghost use Rattle.ae_open_states.specs.Choices.{IsChoiceOf};
ghost use Rattle.ae_open_states.specs.Finished.{AreOverGround};
ghost use Rattle.ae_reach.specs.Reach.{IsInReach};
ghost use Rattle.ae_rules.specs.Clauses.{Clause};
ghost use Rattle.ae_rules.specs.Instances.{exhaustion};
ghost use Rattle.ae_sat.specs.Search.{AllAmong, AllNamed, HasParts, IsLawfulState, IsStated};
ghost use Rattle.ae_sat.specs.Standing.{IsOneOf};
ghost use Rattle.ae_store.specs.Stores.{Stored};
ghost use Rattle.ae_theory.specs.Names.{terms_in};

/// First clauses with those of enumerations are stated by their lines, and where the names before were names of the search, make the next lines of a journal
/// legal; and the clauses over whose formulas a search goes on are over the goal and formulas without quantifier and inequality.
pub fn choices_begin_a_search()
    ensures stated { (p : Problem) (g : ℕ) (firsts lines : List ClauseLine) (first clauses : List Clause) (old new : Stored) (places : List ℕ) → AreFirst p g firsts first → AddsChoices p g old new firsts lines first clauses →
        length places ≡ length clauses → ((k : ℕ) → k < length clauses → slice_index_or places k 0 ≡ k) → IsStated p g lines clauses places }
    ensures lawful { (p : Problem) (g : ℕ) (firsts lines : List ClauseLine) (first clauses : List Clause) (old new : Stored) (names : List Term) → AreFirst p g firsts first → AddsChoices p g old new firsts lines first clauses →
        ((t : Term) → Contains (terms_in old) t → IsEntered (search_setting p g names) [] t) → IsLawfulState (search_setting p g names) [] clauses 0 lines [] }
    ensures over { (p : Problem) (g : ℕ) (firsts lines later : List ClauseLine) (first clauses now : List Clause) (old new : Stored) (places : List ℕ) → IsInReach p g → AreFirst p g firsts first →
        AddsChoices p g old new firsts lines first clauses → ((fs : List Formula) → HasParts fs → AllAmong fs clauses → AllAmong fs now) → IsStated p g later now places → AreOverGround p g now }
{}

/// Where enumerations were added, the terms of each clause have names if those of the clauses before had, each name is one of the search if those before
/// were, and each name of an enumeration is a constructor or has its clause.
pub fn choices_are_named()
    ensures named { (p : Problem) (g : ℕ) (firsts lines : List ClauseLine) (first clauses : List Clause) (old new : Stored) → AddsChoices p g old new firsts lines first clauses → AllNamed old first → AllNamed new clauses }
    ensures entered { (p : Problem) (g : ℕ) (firsts lines : List ClauseLine) (first clauses : List Clause) (old new : Stored) (names : List Term) → AddsChoices p g old new firsts lines first clauses →
        ((t : Term) → Contains (terms_in old) t → IsEntered (search_setting p g names) [] t) → (t : Term) → Contains (terms_in new) t → IsEntered (search_setting p g names) [] t }
    ensures chosen { (p : Problem) (g : ℕ) (firsts lines : List ClauseLine) (first clauses : List Clause) (old new : Stored) → IsLawful p.signature → AddsChoices p g old new firsts lines first clauses →
        (u : Term) (c : Clause) → Contains (terms_in new) u → exhaustion p.signature u ≡ Some c → IsChoiceOf p.signature u u ⊎ IsOneOf clauses c }
{}
