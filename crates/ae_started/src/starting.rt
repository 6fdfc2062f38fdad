//! How a search starts.
ghost use Rattle.std.specs.Prelude.{◌≡◌, [], List, length, IfOk};
ghost use Rattle.ae_journal.specs.Journals.{live, decisions};
ghost use Rattle.ae_journal.specs.declared.lines.Line.{Line};
ghost use Rattle.ae_sat.specs.Search.{AllNamed, IsAlive};
ghost use Rattle.ae_started.specs.Started.{AreOwn};
ghost use Rattle.ae_store.specs.Stores.{Stored};

use ae_core::copies::copy_clause;
use ae_core::formulas::Clause;
use ae_sat::solver::Solver;
use ae_theory::theory::Theory;
use std::alloc::{AllocError, Global};

/// A solver with clauses, each stated by the line of its number. The theory must have assumed nothing.
pub fn started<T: Theory + Drop>(
    alloc: Global,
    theory: T,
    clauses: &[Clause],
) -> Result<Solver<T>, AllocError>
where
    T::Mark: Drop,
    requires nothing { T.assumed theory ≡ [] }
    // It meets the conditions of a search beside each journal without decisions that the theory is in step with, where all terms have names.
    ensures alive { (store : Stored) (js : List Line) → T.fits theory store → T.in_step theory (live js) → decisions (live js) ≡ [] → AllNamed store clauses.now →
        IfOk result (λ s. IsAlive T.fits T.assumed T.fits_mark T.in_step store s.theory s.marks.items s.propagation.trail s.propagation.clauses s.handed s.expanded js) }
    ensures clauses { IfOk result (λ s. s.propagation.clauses ≡ clauses.now) }
    ensures places { IfOk result (λ s. AreOwn (length clauses.now) s.places) }
    ensures trail { IfOk result (λ s. s.propagation.trail ≡ []) }
    ensures expanded { IfOk result (λ s. s.expanded ≡ 0) }
    ensures theory { IfOk result (λ s. s.theory ≡ theory) }
{
    let mut solver = Solver::new(alloc, theory);
    for number in 0..clauses.len() {
        let clause = copy_clause(alloc, clauses[number].as_slice())?;
        solver.add(clause, number)?;
    }
    Ok(solver)
}
