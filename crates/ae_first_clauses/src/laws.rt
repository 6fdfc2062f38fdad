//! Laws of what a search begins with. This function does nothing: its contract is a theorem.
ghost use Rattle.std.specs.Prelude.{ℕ, ◌<◌, ◌≡◌, List, [], length, slice_index_or};
ghost use Rattle.ae_core.specs.declared.formulas.Formula.{Formula};
ghost use Rattle.ae_core.specs.declared.problems.Problem.{Problem};
ghost use Rattle.ae_core.specs.declared.proofs.ClauseLine.{ClauseLine};
ghost use Rattle.ae_first_clauses.specs.First.{AreFirst, IsFirstSetting};
ghost use Rattle.ae_journal.specs.Standing.{Setting};
ghost use Rattle.ae_open_states.specs.Finished.{AreOverGround};
ghost use Rattle.ae_reach.specs.Reach.{IsInReach};
ghost use Rattle.ae_rules.specs.Clauses.{Clause};
ghost use Rattle.ae_sat.specs.Search.{IsLawfulState, IsStated, HasParts, AllAmong};

/// What a search begins with is stated by its lines, and makes the next lines of a journal legal, in each setting in which the constants of the goal's block
/// count from 0; and for a goal in reach the clauses over whose formulas a search goes on are over the goal and formulas without quantifier and inequality.
pub fn first_clauses_begin_a_search()
    ensures stated { (p : Problem) (g : ℕ) (lines : List ClauseLine) (clauses : List Clause) (places : List ℕ) → AreFirst p g lines clauses → length places ≡ length clauses →
        ((k : ℕ) → k < length clauses → slice_index_or places k 0 ≡ k) → IsStated p g lines clauses places }
    ensures lawful { (p : Problem) (g : ℕ) (lines : List ClauseLine) (clauses : List Clause) (x : Setting) → AreFirst p g lines clauses → IsFirstSetting p g x →
        IsLawfulState x [] clauses 0 lines [] }
    ensures over { (p : Problem) (g : ℕ) (firsts : List ClauseLine) (first : List Clause) (lines : List ClauseLine) (clauses : List Clause) (places : List ℕ) → IsInReach p g → AreFirst p g firsts first →
        ((fs : List Formula) → HasParts fs → AllAmong fs first → AllAmong fs clauses) → IsStated p g lines clauses places → AreOverGround p g clauses }
{}
