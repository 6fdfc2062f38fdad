//! What stands in the trail of a search, and what its journal says of it.
ghost use Rattle.std.specs.Prelude.{ℕ, List};
ghost use Rattle.ae_block_constants.specs.declared.opened.Opened.{Opened};
ghost use Rattle.ae_core.specs.declared.formulas.Lit.{Lit};
ghost use Rattle.ae_core.specs.declared.problems.Problem.{Problem};
ghost use Rattle.ae_core.specs.declared.proofs.ClauseLine.{ClauseLine};
ghost use Rattle.ae_journal.specs.Standing.{Setting, MayStand, SurelyStands};
ghost use Rattle.ae_journal.specs.declared.lines.Line.{Line};
ghost use Rattle.ae_propagation.specs.Settled.{Holds};
ghost use Rattle.ae_sat.specs.Search.{IsOpen};
ghost use Rattle.ae_searching.specs.Searching.{IsSearching};
ghost use Rattle.ae_searching.specs.Told.{IsToldIn};
ghost use Rattle.ae_store.specs.Stores.{Stored};

use ae_sat::solver::Solver;
use ae_theory::theory::Theory;

/// What is true in the trail of a search may stand; and where nothing is left to do, what surely stands is true.
pub fn trail_stands<T: Theory + Drop>(solver: &Solver<T>)
where
    T::Mark: Drop,
    ensures may { (p : Problem) (g bound level : ℕ) (s : Stored) (opened : List Opened) (lines : List ClauseLine) (js : List Line) →
        IsSearching T.fits T.assumed T.fits_mark T.in_step p g bound s opened level solver.now lines js →
        (x : Setting) → IsToldIn p g s opened x → (l : Lit) → Holds solver.now.propagation.trail l → MayStand x js l }
    ensures surely { (p : Problem) (g bound level : ℕ) (s : Stored) (opened : List Opened) (lines : List ClauseLine) (js : List Line) →
        IsSearching T.fits T.assumed T.fits_mark T.in_step p g bound s opened level solver.now lines js → IsOpen solver.now.propagation.trail solver.now.propagation.clauses →
        (x : Setting) → IsToldIn p g s opened x → (l : Lit) → SurelyStands x js l → Holds solver.now.propagation.trail l }
{}
