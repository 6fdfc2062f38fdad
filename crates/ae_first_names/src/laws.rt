//! Laws of the names that a search begins with.
ghost use Rattle.std.specs.Prelude.{ℕ, List, [], ◌≡◌};
ghost use Rattle.ae_core.specs.declared.problems.Problem.{Problem};
ghost use Rattle.ae_core.specs.declared.proofs.ClauseLine.{ClauseLine};
ghost use Rattle.ae_first_clauses.specs.First.{AreFirst, search_setting};
ghost use Rattle.ae_goal_names.specs.Named.{HasNamed, all_terms};
ghost use Rattle.ae_rules.specs.Clauses.{Clause};
ghost use Rattle.ae_sat.specs.Search.{AllNamed};
ghost use Rattle.ae_store.specs.Stores.{Stored};
ghost use Rattle.ae_theory.specs.Names.{terms_in, IsNamedBy};

/// Where a store without names has named the terms of what a search begins with, the terms of each clause have names, and each name is one that the
/// search's journal has.
pub fn first_names_are_entered()
    ensures named { (p : Problem) (g : ℕ) (lines : List ClauseLine) (clauses : List Clause) (old new : Stored) → AreFirst p g lines clauses → HasNamed old new (all_terms clauses) → AllNamed new clauses }
    ensures entered { (p : Problem) (g : ℕ) (lines : List ClauseLine) (clauses : List Clause) (old new : Stored) → AreFirst p g lines clauses → old.signature ≡ p.signature → terms_in old ≡ [] →
        HasNamed old new (all_terms clauses) → IsNamedBy (search_setting p g (terms_in new)) new [] }
{}
