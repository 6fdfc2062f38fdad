//! A clause more, with the line that states it.
ghost use Rattle.std.specs.Prelude.{◌≡◌, ◌∷◌, ◌++◌, [], ℕ, List, OnOk, OnErr};
ghost use Rattle.ae_core.specs.declared.problems.Problem.{Problem};
ghost use Rattle.ae_journal.specs.declared.lines.Line.{Line};
ghost use Rattle.ae_rules.specs.Derivations.{AreAllowed, IsAllowed};
ghost use Rattle.ae_searching.specs.Searching.{IsSearching};
ghost use Rattle.ae_searching.specs.Steps.{Lowers, MayBring, MayCome};
ghost use Rattle.ae_block_constants.specs.declared.opened.Opened.{Opened};
ghost use Rattle.ae_store.specs.Stores.{Stored};

use ae_core::formulas::Clause;
use ae_core::proofs::ClauseLine;
use ae_sat::solver::Solver;
use ae_theory::theory::Theory;
use std::alloc::AllocError;

/// Puts a line behind the others.
fn push_line(lines: &mut Vec<ClauseLine>, line: ClauseLine) -> Result<(), AllocError>
    ensures ok { OnOk result (lines.new.items ≡ lines.old.items ++ line ∷ []) }
    ensures err { OnErr result (lines.new.items ≡ lines.old.items) }
{
    match lines.push(line) {
        Ok(()) => Ok(()),
        Err(failed) => Err(AllocError::from(failed)),
    }
}

/// Adds a clause with the line that states it.
pub fn add_line<T: Theory + Drop>(
    solver: &mut Solver<T>,
    lines: &mut Vec<ClauseLine>,
    line: ClauseLine,
    clause: Clause,
) -> Result<(), AllocError>
where
    T::Mark: Drop,
    // A search goes on with a possible clause, where it may come next.
    ensures searching { (p : Problem) (g bound level : ℕ) (s : Stored) (opened : List Opened) (js : List Line) → MayCome p g s opened lines.old.items js line clause →
        IsSearching T.fits T.assumed T.fits_mark T.in_step p g bound s opened level solver.old lines.old.items js →
        OnOk result (IsSearching T.fits T.assumed T.fits_mark T.in_step p g bound s opened level solver.new lines.new.items js) }
    // So it does with the clause of an instance line that was noted, where the level is low enough.
    ensures brought { (p : Problem) (g bound level least : ℕ) (s more : Stored) (opened : List Opened) (js : List Line) (noted : Line) →
        MayBring p g bound s more opened js noted line clause → Lowers solver.old.propagation.trail clause level least →
        IsSearching T.fits T.assumed T.fits_mark T.in_step p g bound s opened level solver.old lines.old.items js →
        OnOk result (IsSearching T.fits T.assumed T.fits_mark T.in_step p g bound more opened least solver.new lines.new.items (js ++ noted ∷ [])) }
    // Whatever it comes to, the lines are allowed.
    ensures allowed { (p : Problem) (g : ℕ) → AreAllowed p g [] lines.old.items → IsAllowed p g lines.old.items line → AreAllowed p g [] lines.new.items }
    ensures lines { OnOk result (lines.new.items ≡ lines.old.items ++ line ∷ []) }
    ensures clauses { OnOk result (solver.new.propagation.clauses ≡ solver.old.propagation.clauses ++ clause ∷ []) }
    ensures trail { solver.new.propagation.trail ≡ solver.old.propagation.trail }
    ensures theory { solver.new.theory ≡ solver.old.theory }
{
    let place = lines.len();
    push_line(lines, line)?;
    solver.add(clause, place)?;
    Ok(())
}
