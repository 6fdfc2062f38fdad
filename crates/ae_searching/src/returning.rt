//! Going back where given clauses came late.
ghost use Rattle.std.specs.Prelude.{◌≡◌, ◌⊎◌, ◌≤◌, ◌∷◌, ◌++◌, [], ℕ, List, OnOk, Err};
ghost use Rattle.ae_core.specs.declared.problems.Problem.{Problem};
ghost use Rattle.ae_core.specs.declared.proofs.ClauseLine.{ClauseLine};
ghost use Rattle.ae_journal.specs.Journals.{counted_in};
ghost use Rattle.ae_journal.specs.declared.answers.WideAt.{WideAt};
ghost use Rattle.ae_journal.specs.declared.lines.Line.TheVariants as line;
ghost use Rattle.ae_propagation.specs.Settled.{last_level};
ghost use Rattle.ae_searching.specs.Searching.{IsAliveIn, IsLawfulSoFar, IsSearching};
ghost use Rattle.ae_searching.specs.Steps.{HasNews, NotesNoInstance};
ghost use Rattle.ae_block_constants.specs.declared.opened.Opened.{Opened};
ghost use Rattle.ae_store.specs.Stores.{Stored};
ghost use Rattle.ae_theory.specs.declared.theory.Fail.TheVariants.{Steps as OutOfSteps, Number};

use ae_journal::journal::Journal;
use ae_propagation::settle::level_now;
use ae_sat::solver::Solver;
use ae_theory::theory::{Fail, Theory};

/// Goes back to a level, where the present one is above it.
pub fn return_to<T: Theory + Drop>(
    solver: &mut Solver<T>,
    journal: &mut Journal,
    level: usize,
) -> Result<(), Fail>
where
    T::Mark: Drop,
    requires alive { (s : Stored) × IsAliveIn T.fits T.assumed T.fits_mark T.in_step s solver.old journal.old.lines }
    // The search can be run then, if it rests below the level.
    ensures searching { (p : Problem) (g bound : ℕ) (s : Stored) (opened : List Opened) (lines : List ClauseLine) → HasNews journal.old.lines →
        IsSearching T.fits T.assumed T.fits_mark T.in_step p g bound s opened level solver.old lines journal.old.lines →
        OnOk result (IsSearching T.fits T.assumed T.fits_mark T.in_step p g bound s opened level solver.new lines journal.new.lines) }
    ensures level { OnOk result (last_level solver.new.propagation.trail ≤ level) }
    // Whatever it comes to, all lines are lawful.
    ensures so_far { (p : Problem) (g bound : ℕ) (s : Stored) (opened : List Opened) (lines : List ClauseLine) → HasNews journal.old.lines →
        IsLawfulSoFar p g bound s opened lines journal.old.lines → IsLawfulSoFar p g bound s opened lines journal.new.lines }
    ensures never_wide { (wide : WideAt) → ¬ (result ≡ Err (Number wide)) }
    ensures steps { result ≡ Err OutOfSteps → counted_in journal.new.lines ≡ journal.new.limit }
    ensures noted_or { (journal.new ≡ journal.old) ⊎ (journal.new ≡ record journal.old { lines = journal.old.lines ++ line.Back level ∷ [] }) }
    // No line of an instance comes in.
    ensures instances { NotesNoInstance journal.old.lines journal.new.lines }
    ensures clauses { solver.new.propagation.clauses ≡ solver.old.propagation.clauses }
{
    let present = level_now(solver.trail());
    if present <= level {
        return Ok(());
    }
    solver.go_back(journal, level)?;
    Ok(())
}
