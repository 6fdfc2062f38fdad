//! The same in a search.
ghost use Rattle.std.specs.Prelude.{ℕ, List, IfOk};
ghost use Rattle.ae_block_constants.specs.declared.opened.Opened.{Opened};
ghost use Rattle.ae_core.specs.declared.proofs.ClauseLine.{ClauseLine};
ghost use Rattle.ae_journal.specs.Standing.{Setting};
ghost use Rattle.ae_sat.specs.Search.{IsOpen};
ghost use Rattle.ae_searching.specs.Searching.{IsSearching};
ghost use Rattle.ae_searching.specs.Told.{IsToldIn};
ghost use Rattle.ae_store.specs.Stores.{Stored};
ghost use Rattle.ae_sure_literals.specs.Sure.{AreSure};

use crate::sure::sure_literals;
use ae_core::lists::List;
use ae_core::problems::Problem;
use ae_journal::journal::Journal;
use ae_sat::solver::Solver;
use ae_searching::standing::trail_stands;
use ae_theory::theory::Theory;
use std::alloc::{AllocError, Global};

/// Which literals of the trail surely stand in a search that has nothing left to do, whatever names the journal may get and whatever constants other blocks.
pub fn sure_in_search<T: Theory + Drop>(
    alloc: Global,
    problem: &Problem,
    goal: usize,
    solver: &Solver<T>,
    journal: &Journal,
) -> Result<List<bool>, AllocError>
where
    T::Mark: Drop,
    ensures { (bound level : ℕ) (s : Stored) (opened : List Opened) (lines : List ClauseLine) →
        IsSearching T.fits T.assumed T.fits_mark T.in_step problem.now goal bound s opened level solver.now lines journal.now.lines →
        IsOpen solver.now.propagation.trail solver.now.propagation.clauses → (x : Setting) → IsToldIn problem.now goal s opened x →
        IfOk result (AreSure x journal.now.lines solver.now.propagation.trail) }
{
    trail_stands(solver);
    sure_literals(alloc, problem, goal, solver.trail(), journal.lines())
}
