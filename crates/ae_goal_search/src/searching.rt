//! The search.
ghost use Rattle.std.specs.Prelude.{◌≡◌, ◌<◌, ◌≤◌, [], ℕ, Err, IfOk, MatchOption};
ghost use Rattle.ae_goal_search.specs.Ended.{IsLeft, IsRefutation, IsSettled};
ghost use Rattle.ae_goal_search.specs.Started.{IsStarted};
ghost use Rattle.ae_first_clauses.specs.First.{search_setting};
ghost use Rattle.ae_journal.specs.Journals.{counted_in};
ghost use Rattle.ae_journal.specs.Licences.{IsLicensed};
ghost use Rattle.ae_journal.specs.declared.answers.WideAt.{WideAt};
ghost use Rattle.ae_sat.specs.Apart.{AreConjunctive};
ghost use Rattle.ae_sat.specs.Marked.{atoms};
ghost use Rattle.ae_theory.specs.Names.{terms_in};
ghost use Rattle.ae_theory.specs.declared.theory.Fail.TheVariants.{Steps as OutOfSteps, Number};

use ae_core::formulas::Clause;
use ae_core::problems::Problem;
use ae_core::proofs::ClauseLine;
use ae_journal::journal::Journal;
use ae_sat::run::SatEnd;
use ae_sat::solver::Solver;
use ae_search_options::picks::Pick;
use ae_started::started;
use ae_store::store::Store;
use ae_theory::theory::{Fail, Theory};
use std::alloc::Global;

/// Searches from the first lines and their clauses, over a theory that has assumed nothing, and puts its lines behind the first ones. `None` where they
/// refute the goal's negation, the solver where nothing is left to do. `Steps` where the journal is full, `Number` with a width that it licenses.
pub fn search<T: Theory + Drop>(
    alloc: Global,
    problem: &Problem,
    goal: usize,
    store: &Store,
    clauses: &[Clause],
    theory: T,
    pick: &Pick,
    journal: &mut Journal,
    lines: &mut Vec<ClauseLine>,
) -> Result<Option<Solver<T>>, Fail>
where
    T::Mark: Drop,
    requires nothing { T.assumed theory ≡ [] }
    requires fits { T.fits theory store.now }
    requires step { T.in_step theory [] }
    requires started { IsStarted problem.now goal lines.old.items clauses.now store.now }
    requires none { journal.old.lines ≡ [] }
    ensures left { IsLeft problem.now goal store.now journal.new.lines lines.new.items }
    ensures end { IfOk result (λ end. MatchOption end (IsRefutation store.now lines.old.items clauses.now lines.new.items)
        (λ s. IsSettled problem.now goal store.now clauses.now s.propagation.trail s.propagation.clauses × T.fits s.theory store.now × (T.assumed s.theory ≡ atoms s.propagation.trail) × T.is_complete s.theory store.now)) }
    ensures limit { journal.new.limit ≡ journal.old.limit }
    ensures steps { result ≡ Err OutOfSteps → counted_in journal.new.lines ≡ journal.old.limit }
    ensures number { (wide : WideAt) → result ≡ Err (Number wide) → IsLicensed (search_setting problem.now goal (terms_in store.now)) journal.new.lines wide }
    // Where nothing is left to choose, no more lines are noted than the theory may note, and fewer where the journal is full.
    ensures few { (n : ℕ) → AreConjunctive clauses.now → T.may_note theory store.now n → counted_in journal.new.lines ≤ n }
    ensures fewer { result ≡ Err OutOfSteps → (n : ℕ) → AreConjunctive clauses.now → T.may_note theory store.now n → counted_in journal.new.lines < n }
{
    let mut solver = started(alloc, theory, clauses)?;
    match solver.run(store, journal, pick, lines)? {
        SatEnd::Refuted => Ok(None),
        SatEnd::Open => Ok(Some(solver)),
    }
}
