//! More names, more blocks that were opened, more combinations of rows.
ghost use Rattle.std.specs.Prelude.{◌≡◌, ◌≤◌, ◌++◌, ℕ, List};
ghost use Rattle.std.specs.List.{Contains};
ghost use Rattle.ae_core.specs.declared.problems.Problem.{Problem};
ghost use Rattle.ae_core.specs.declared.proofs.ClauseLine.{ClauseLine};
ghost use Rattle.ae_journal.specs.Journals.{OnlyCombines};
ghost use Rattle.ae_journal.specs.Legal.{AreLegal};
ghost use Rattle.ae_journal.specs.Standing.{Setting};
ghost use Rattle.ae_journal.specs.declared.lines.Line.{Line};
ghost use Rattle.ae_propagation.specs.Settled.{last_level};
ghost use Rattle.ae_sat.specs.Search.{IsStated};
ghost use Rattle.ae_searching.specs.Searching.{IsAliveIn, IsLawfulSoFar, IsSearching};
ghost use Rattle.ae_searching.specs.Steps.{Grows};
ghost use Rattle.ae_searching.specs.Told.{IsLawfulFor, IsToldIn};
ghost use Rattle.ae_block_constants.specs.declared.opened.Opened.{Opened};
ghost use Rattle.ae_store.specs.Stores.{Stored};
ghost use Rattle.ae_theory.specs.Names.{Extends};

use ae_sat::solver::Solver;
use ae_theory::theory::Theory;

/// A search goes on where its store gets more terms, each of them a name of the journal, and where blocks are opened.
pub fn names_grow<T: Theory + Drop>(solver: &Solver<T>)
where
    T::Mark: Drop,
    ensures { (p : Problem) (g bound level : ℕ) (old new : Stored) (opened opened2 : List Opened) (lines : List ClauseLine) (js : List Line) →
        Grows p g old new opened opened2 js →
        IsSearching T.fits T.assumed T.fits_mark T.in_step p g bound old opened level solver.now lines js →
        IsSearching T.fits T.assumed T.fits_mark T.in_step p g bound new opened2 level solver.now lines js }
{}

/// A search goes on where combinations of rows were noted.
pub fn combinations_grow<T: Theory + Drop>(solver: &Solver<T>)
where
    T::Mark: Drop,
    ensures { (p : Problem) (g bound level : ℕ) (s : Stored) (opened : List Opened) (lines : List ClauseLine) (js added : List Line) →
        OnlyCombines added → ((x : Setting) → IsToldIn p g s opened x → AreLegal x bound js added) →
        IsSearching T.fits T.assumed T.fits_mark T.in_step p g bound s opened level solver.now lines js →
        IsSearching T.fits T.assumed T.fits_mark T.in_step p g bound s opened level solver.now lines (js ++ added) }
{}

/// A search that rests below a level rests below each lower one; all that it did so far is lawful, and what comes next will be where the present level isn't
/// above the one that it rests below. So a search begins, too.
pub fn search_is_lawful<T: Theory + Drop>(solver: &Solver<T>)
where
    T::Mark: Drop,
    ensures lower { (p : Problem) (g bound level least : ℕ) (s : Stored) (opened : List Opened) (lines : List ClauseLine) (js : List Line) → least ≤ level →
        IsSearching T.fits T.assumed T.fits_mark T.in_step p g bound s opened level solver.now lines js →
        IsSearching T.fits T.assumed T.fits_mark T.in_step p g bound s opened least solver.now lines js }
    ensures so_far { (p : Problem) (g bound level : ℕ) (s : Stored) (opened : List Opened) (lines : List ClauseLine) (js : List Line) →
        IsSearching T.fits T.assumed T.fits_mark T.in_step p g bound s opened level solver.now lines js → IsLawfulSoFar p g bound s opened lines js }
    ensures lawful { (p : Problem) (g bound level : ℕ) (s : Stored) (opened : List Opened) (lines : List ClauseLine) (js : List Line) → last_level solver.now.propagation.trail ≤ level →
        IsSearching T.fits T.assumed T.fits_mark T.in_step p g bound s opened level solver.now lines js →
        (x : Setting) → IsToldIn p g s opened x → IsLawfulFor x bound s solver.now.propagation.trail solver.now.propagation.clauses solver.now.expanded lines js }
    ensures begins { (p : Problem) (g bound : ℕ) (s : Stored) (opened : List Opened) (lines : List ClauseLine) (js : List Line) → p.signature ≡ s.signature →
        IsAliveIn T.fits T.assumed T.fits_mark T.in_step s solver.now js → IsStated p g lines solver.now.propagation.clauses solver.now.places →
        ((x : Setting) → IsToldIn p g s opened x → IsLawfulFor x bound s solver.now.propagation.trail solver.now.propagation.clauses solver.now.expanded lines js) →
        IsSearching T.fits T.assumed T.fits_mark T.in_step p g bound s opened (last_level solver.now.propagation.trail) solver.now lines js }
{}

/// A setting for more terms and more blocks is one for fewer, so what is lawful so far stays so where the new terms are names of the journal.
pub fn settings_narrow()
    ensures told { (p : Problem) (g : ℕ) (old new : Stored) (opened opened2 : List Opened) (x : Setting) → Extends old new →
        ((o : Opened) → Contains opened o → Contains opened2 o) → IsToldIn p g new opened2 x → IsToldIn p g old opened x }
    ensures so_far { (p : Problem) (g bound : ℕ) (old new : Stored) (opened opened2 : List Opened) (lines : List ClauseLine) (js : List Line) →
        Grows p g old new opened opened2 js → IsLawfulSoFar p g bound old opened lines js → IsLawfulSoFar p g bound new opened2 lines js }
{}
