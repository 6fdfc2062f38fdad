//! Instances: a line of the journal, and the clause that it brings.
ghost use Rattle.std.specs.Prelude.{◌≡◌, ◌<◌, ◌≤◌, ◌∷◌, ◌++◌, [], ℕ, List, false, OnOk, OnErr, Err};
ghost use Rattle.ae_core.specs.declared.problems.Problem.{Problem};
ghost use Rattle.ae_journal.specs.Journals.{counted_in, is_counted};
ghost use Rattle.ae_journal.specs.declared.answers.WideAt.{WideAt};
ghost use Rattle.ae_sat.specs.Search.{Progresses};
ghost use Rattle.ae_searching.specs.Searching.{IsLawfulSoFar, IsSearching};
ghost use Rattle.ae_searching.specs.Steps.{HasNews, IsStatedBy, Lowers, MayBring};
ghost use Rattle.ae_block_constants.specs.declared.opened.Opened.{Opened};
ghost use Rattle.ae_store.specs.Stores.{Stored};
ghost use Rattle.ae_theory.specs.declared.theory.Fail.TheVariants.{Memory, Number, Steps as OutOfSteps};
ghost use Rattle.std.specs.declared.alloc.AllocError.{AllocError};

use crate::adding::add_line;
use ae_core::formulas::Clause;
use ae_core::proofs::ClauseLine;
use ae_journal::journal::{Journal, JournalFail};
use ae_journal::lines::Line;
use ae_sat::solver::Solver;
use ae_theory::theory::{Fail, Theory};

/// Notes a line.
fn note(journal: &mut Journal, line: Line) -> Result<(), Fail>
    ensures ok { OnOk result (journal.new ≡ record journal.old { lines = journal.old.lines ++ line ∷ [] }) }
    ensures err { OnErr result (journal.new ≡ journal.old) }
    ensures steps { result ≡ Err OutOfSteps → counted_in journal.old.lines ≡ journal.old.limit }
    ensures memory { (failed : AllocError) → result ≡ Err (Memory failed) → is_counted line ≡ false }
    ensures never_wide { (wide : WideAt) → ¬ (result ≡ Err (Number wide)) }
    ensures within { counted_in journal.new.lines ≤ journal.new.limit }
    ensures limit { journal.new.limit ≡ journal.old.limit }
{
    let noted = journal.note(line);
    let _count = journal.counted();
    match noted {
        Ok(()) => Ok(()),
        Err(JournalFail::Full) => Err(Fail::Steps),
        Err(JournalFail::Memory(failed)) => Err(Fail::Memory(failed)),
    }
}

/// Notes an instance line, and adds the clause that it brings with the line that states it. `Steps` where the journal is full.
pub fn bring<T: Theory + Drop>(
    solver: &mut Solver<T>,
    journal: &mut Journal,
    lines: &mut Vec<ClauseLine>,
    noted: Line,
    line: ClauseLine,
    clause: Clause,
) -> Result<(), Fail>
where
    T::Mark: Drop,
    // The search goes on where the line may come next; it may have to go back first.
    ensures searching { (p : Problem) (g bound level least : ℕ) (s more : Stored) (opened : List Opened) → MayBring p g bound s more opened journal.old.lines noted line clause →
        Lowers solver.old.propagation.trail clause level least →
        IsSearching T.fits T.assumed T.fits_mark T.in_step p g bound s opened level solver.old lines.old.items journal.old.lines →
        OnOk result (IsSearching T.fits T.assumed T.fits_mark T.in_step p g bound more opened least solver.new lines.new.items journal.new.lines × HasNews journal.new.lines) }
    // Where the journal isn't full, all lines are lawful, whatever it comes to.
    ensures so_far { (p : Problem) (g bound : ℕ) (s more : Stored) (opened : List Opened) → MayBring p g bound s more opened journal.old.lines noted line clause →
        counted_in journal.old.lines < journal.old.limit →
        IsLawfulSoFar p g bound s opened lines.old.items journal.old.lines → IsLawfulSoFar p g bound more opened lines.new.items journal.new.lines }
    // One more counted line was noted.
    ensures progresses { IsStatedBy noted line → OnOk result (Progresses journal.old journal.new) }
    ensures steps { result ≡ Err OutOfSteps → counted_in journal.new.lines ≡ journal.new.limit }
    ensures never_wide { (wide : WideAt) → ¬ (result ≡ Err (Number wide)) }
    ensures noted { OnOk result (journal.new ≡ record journal.old { lines = journal.old.lines ++ noted ∷ [] }) }
    ensures clauses { OnOk result (solver.new.propagation.clauses ≡ solver.old.propagation.clauses ++ clause ∷ []) }
    ensures trail { solver.new.propagation.trail ≡ solver.old.propagation.trail }
    ensures theory { solver.new.theory ≡ solver.old.theory }
    ensures within { counted_in journal.new.lines ≤ journal.new.limit }
    ensures limit { journal.new.limit ≡ journal.old.limit }
{
    note(journal, noted)?;
    add_line(solver, lines, line, clause)?;
    Ok(())
}
