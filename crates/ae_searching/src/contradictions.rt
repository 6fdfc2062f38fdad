//! A contradiction that was found at an open state of a search.
ghost use Rattle.std.specs.Prelude.{◌≡◌, ◌≤◌, ℕ, List, map, true, false, Ok, Err, OnOk};
ghost use Rattle.ae_core.specs.declared.formulas.Formula.{Formula};
ghost use Rattle.ae_core.specs.declared.problems.Problem.{Problem};
ghost use Rattle.ae_block_constants.specs.declared.opened.Opened.{Opened};
ghost use Rattle.ae_explain.specs.Trail.{AreFalse};
ghost use Rattle.ae_journal.specs.Journals.{counted_in};
ghost use Rattle.ae_journal.specs.Standing.{Setting};
ghost use Rattle.ae_journal.specs.declared.answers.WideAt.{WideAt};
ghost use Rattle.ae_propagation.specs.Settled.{last_level};
ghost use Rattle.ae_rules.specs.Clauses.{Clause, opposite};
ghost use Rattle.ae_rules.specs.Derivations.{IsContradictory, clause_ok};
ghost use Rattle.ae_sat.specs.Search.{AddsLearnt, AllAmong, EndsEmpty, HasParts, Keeps, Progresses};
ghost use Rattle.ae_sat.specs.Standing.{IsOneOf};
ghost use Rattle.ae_searching.specs.Searching.{IsAliveIn, IsLawfulSoFar, IsSearching};
ghost use Rattle.ae_searching.specs.Steps.{NotesNoInstance};
ghost use Rattle.ae_searching.specs.Told.{IsToldIn};
ghost use Rattle.ae_theory.specs.declared.theory.Fail.TheVariants.{Steps as OutOfSteps, Number};

use ae_core::proofs::{Block, ClauseLine};
use ae_journal::journal::Journal;
use ae_sat::solver::Solver;
use ae_store::store::Store;
use ae_theory::theory::{Fail, Theory};

/// Learns from a block whose hypotheses are true, and goes back as far as what is learnt asks for. `true` where the lines end with the empty clause.
/// `Steps` where the journal is full.
pub fn learn_from<T: Theory + Drop>(
    solver: &mut Solver<T>,
    store: &Store,
    journal: &mut Journal,
    lines: &mut Vec<ClauseLine>,
    block: Block,
) -> Result<bool, Fail>
where
    T::Mark: Drop,
    requires contradictory { IsContradictory store.now.signature block }
    requires sorted { clause_ok store.now.signature block.deriv.hyps ≡ true }
    requires falsified { AreFalse solver.old.propagation.trail (map opposite block.deriv.hyps) }
    requires alive { IsAliveIn T.fits T.assumed T.fits_mark T.in_step store.now solver.old journal.old.lines }
    // A search that rests below the present level goes on, and rests below the level that it comes to.
    ensures searching { (p : Problem) (g bound level : ℕ) (opened : List Opened) → last_level solver.old.propagation.trail ≤ level →
        IsSearching T.fits T.assumed T.fits_mark T.in_step p g bound store.now opened level solver.old lines.old.items journal.old.lines →
        OnOk result (IsSearching T.fits T.assumed T.fits_mark T.in_step p g bound store.now opened (last_level solver.new.propagation.trail) solver.new lines.new.items journal.new.lines) }
    // Whatever it comes to, all lines are lawful.
    ensures so_far { (p : Problem) (g bound level : ℕ) (opened : List Opened) → last_level solver.old.propagation.trail ≤ level →
        IsSearching T.fits T.assumed T.fits_mark T.in_step p g bound store.now opened level solver.old lines.old.items journal.old.lines →
        IsLawfulSoFar p g bound store.now opened lines.new.items journal.new.lines }
    // No line of an instance comes in.
    ensures instances { (p : Problem) (g bound level : ℕ) (opened : List Opened) → last_level solver.old.propagation.trail ≤ level →
        IsSearching T.fits T.assumed T.fits_mark T.in_step p g bound store.now opened level solver.old lines.old.items journal.old.lines →
        (x : Setting) → IsToldIn p g store.now opened x → NotesNoInstance journal.old.lines journal.new.lines }
    ensures never_wide { (wide : WideAt) → ¬ (result ≡ Err (Number wide)) }
    ensures steps { result ≡ Err OutOfSteps → counted_in journal.new.lines ≡ journal.new.limit }
    // The block and what is learnt from it are the last of the lines, over formulas that are there.
    ensures lines { OnOk result (AddsLearnt block solver.old.propagation.clauses lines.old.items lines.new.items) }
    ensures journal { Keeps journal.old journal.new }
    ensures kept { (c : Clause) → IsOneOf solver.old.propagation.clauses c → OnOk result (IsOneOf solver.new.propagation.clauses c) }
    ensures formulas { (fs : List Formula) → HasParts fs → AllAmong fs solver.old.propagation.clauses → OnOk result (AllAmong fs solver.new.propagation.clauses) }
    ensures refuted { result ≡ Ok true → EndsEmpty lines.new.items }
    // Where the search goes on, a counted line was noted.
    ensures learnt { result ≡ Ok false → Progresses journal.old journal.new }
{
    solver.learn_contradiction(store, journal, lines, block)
}
