//! A run of the solver in a search.
ghost use Rattle.std.specs.Prelude.{◌≡◌, ◌≤◌, ℕ, List, length, Ok, Err, OnOk};
ghost use Rattle.ae_core.specs.declared.formulas.Formula.{Formula};
ghost use Rattle.ae_core.specs.declared.problems.Problem.{Problem};
ghost use Rattle.ae_journal.specs.Journals.{counted_in};
ghost use Rattle.ae_journal.specs.Licences.{IsLicensed};
ghost use Rattle.ae_journal.specs.Standing.{Setting};
ghost use Rattle.ae_journal.specs.declared.answers.WideAt.{WideAt};
ghost use Rattle.ae_propagation.specs.Settled.{last_level};
ghost use Rattle.ae_rules.specs.Clauses.{Clause};
ghost use Rattle.ae_sat.specs.Lines.{AddsLinesOver};
ghost use Rattle.ae_sat.specs.Search.{AllAmong, Brings, EndsEmpty, HasParts, IsOpen, Keeps};
ghost use Rattle.ae_sat.specs.Standing.{IsOneOf};
ghost use Rattle.ae_sat.specs.declared.run.SatEnd.TheVariants.{Refuted, Open};
ghost use Rattle.ae_searching.specs.Searching.{IsAliveIn, IsLawfulSoFar, IsSearching};
ghost use Rattle.ae_searching.specs.Steps.{NotesNoInstance};
ghost use Rattle.ae_searching.specs.Told.{IsToldIn};
ghost use Rattle.ae_block_constants.specs.declared.opened.Opened.{Opened};
ghost use Rattle.ae_theory.specs.declared.theory.Fail.TheVariants.{Steps as OutOfSteps, Number};

use ae_core::proofs::ClauseLine;
use ae_journal::journal::Journal;
use ae_sat::run::SatEnd;
use ae_sat::solver::Solver;
use ae_search_options::picks::Pick;
use ae_store::store::Store;
use ae_theory::theory::{Fail, Theory};

/// Runs the solver of a search, until the lines end with the empty clause, or until nothing is left to do for it.
pub fn run_on<T: Theory + Drop>(
    solver: &mut Solver<T>,
    store: &Store,
    journal: &mut Journal,
    pick: &Pick,
    lines: &mut Vec<ClauseLine>,
) -> Result<SatEnd, Fail>
where
    T::Mark: Drop,
    requires alive { IsAliveIn T.fits T.assumed T.fits_mark T.in_step store.now solver.old journal.old.lines }
    // A search that rests below the present level goes on, and rests below the level that it comes to.
    ensures searching { (p : Problem) (g bound level : ℕ) (opened : List Opened) → last_level solver.old.propagation.trail ≤ level →
        IsSearching T.fits T.assumed T.fits_mark T.in_step p g bound store.now opened level solver.old lines.old.items journal.old.lines →
        OnOk result (IsSearching T.fits T.assumed T.fits_mark T.in_step p g bound store.now opened (last_level solver.new.propagation.trail) solver.new lines.new.items journal.new.lines) }
    // Whatever it comes to, all lines are lawful.
    ensures so_far { (p : Problem) (g bound level : ℕ) (opened : List Opened) → last_level solver.old.propagation.trail ≤ level →
        IsSearching T.fits T.assumed T.fits_mark T.in_step p g bound store.now opened level solver.old lines.old.items journal.old.lines →
        IsLawfulSoFar p g bound store.now opened lines.new.items journal.new.lines }
    // No line of an instance comes in.
    ensures instances { (p : Problem) (g bound level : ℕ) (opened : List Opened) → last_level solver.old.propagation.trail ≤ level →
        IsSearching T.fits T.assumed T.fits_mark T.in_step p g bound store.now opened level solver.old lines.old.items journal.old.lines →
        (x : Setting) → IsToldIn p g store.now opened x → NotesNoInstance journal.old.lines journal.new.lines }
    ensures number { (wide : WideAt) → result ≡ Err (Number wide) → (p : Problem) (g bound level : ℕ) (opened : List Opened) → last_level solver.old.propagation.trail ≤ level →
        IsSearching T.fits T.assumed T.fits_mark T.in_step p g bound store.now opened level solver.old lines.old.items journal.old.lines →
        (x : Setting) → IsToldIn p g store.now opened x → IsLicensed x journal.new.lines wide }
    ensures steps { result ≡ Err OutOfSteps → counted_in journal.new.lines ≡ journal.new.limit }
    ensures journal { Keeps journal.old journal.new }
    // Where no counted line was noted, no literal goes, none is decided, and each clause is an old one or a row that a true literal calls for.
    ensures still { result ≡ Ok Open → counted_in journal.new.lines ≡ counted_in journal.old.lines →
        Brings solver.old.propagation.trail solver.old.propagation.clauses solver.new.propagation.trail solver.new.propagation.clauses }
    ensures kept { (c : Clause) → IsOneOf solver.old.propagation.clauses c → OnOk result (IsOneOf solver.new.propagation.clauses c) }
    // No formula comes in but parts of those that are there, and the lines that come in are over such formulas.
    ensures formulas { (fs : List Formula) → HasParts fs → AllAmong fs solver.old.propagation.clauses → OnOk result (AllAmong fs solver.new.propagation.clauses) }
    ensures lines { (fs : List Formula) → HasParts fs → AllAmong fs solver.old.propagation.clauses → OnOk result (AddsLinesOver store.now fs lines.old.items lines.new.items) }
    ensures refuted { result ≡ Ok Refuted → EndsEmpty lines.new.items }
    ensures open_clauses { result ≡ Ok Open → IsOpen solver.new.propagation.trail solver.new.propagation.clauses }
    // The theory was told all atoms of the trail, and has nothing left to do.
    ensures told { result ≡ Ok Open → solver.new.handed ≡ length solver.new.propagation.trail }
    ensures complete { result ≡ Ok Open → T.is_complete solver.new.theory store.now }
{
    solver.run(store, journal, pick, lines)
}
