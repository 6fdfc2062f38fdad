//! Laws of what a search ends with. These functions do nothing: each one's contract is a theorem.
ghost use Rattle.std.specs.Prelude.{ℕ, ◌≡◌, List};
ghost use Rattle.std.specs.List.{AllByRecursion};
ghost use Rattle.ae_core.specs.declared.problems.Problem.{Problem};
ghost use Rattle.ae_core.specs.declared.proofs.ClauseLine.{ClauseLine};
ghost use Rattle.ae_core.specs.declared.proofs.Proof.{Proof};
ghost use Rattle.ae_explain.specs.declared.trail.Assigned.{Assigned};
ghost use Rattle.ae_goal_search.specs.Ended.{IsRefutation, IsSettled};
ghost use Rattle.ae_goal_search.specs.Started.{IsStarted};
ghost use Rattle.ae_journal.specs.declared.systems.System.{System};
ghost use Rattle.ae_open_states.specs.Shown.{shown};
ghost use Rattle.ae_rules.specs.Clauses.{Clause};
ghost use Rattle.ae_store.specs.Stores.{Stored};
ghost use Rattle.ae_theory.specs.Names.{terms_in};
ghost use Rattle.ae_writable.specs.Numbers.{HasLowestNumerals};
ghost use Rattle.ae_writable.specs.Writable.{IsWritableProof, IsWritableRule, IsWritableState};

/// The lines that a search refutes a goal's negation with can be written, where the problem's numerals are in lowest terms: no line brings in a numeral
/// but whole numbers, factors are within the limits, and no literal denies a negation.
pub fn refutations_are_writable()
    ensures { (p : Problem) (g : ℕ) (firsts : List ClauseLine) (clauses : List Clause) (s : Stored) → IsStarted p g firsts clauses s → HasLowestNumerals p →
        (proof : Proof) → IsRefutation s firsts clauses proof.lines → IsWritableProof proof }
{}

/// The state of a search in which each clause has a true literal can be written, where the problem's numerals are in lowest terms, the system's names are
/// those of the search, and its rules can be written.
pub fn settled_states_are_writable()
    ensures { (p : Problem) (g : ℕ) (firsts : List ClauseLine) (first : List Clause) (s : Stored) → IsStarted p g firsts first s → HasLowestNumerals p →
        (t : List Assigned) (clauses : List Clause) (y : System) → IsSettled p g s first t clauses → y.names ≡ terms_in s → AllByRecursion (IsWritableRule p.signature) y.rules →
        IsWritableState p.signature (shown t y) }
{}
