//! The answer that a search comes to.
ghost use Rattle.std.specs.Prelude.{◌≡◌, IfOk};
ghost use Rattle.std.specs.List.{AllByRecursion};
ghost use Rattle.ae_goal_search.specs.Started.{IsStarted};
ghost use Rattle.ae_open_states.specs.Shown.{shown};
ghost use Rattle.ae_search.specs.Promises.{IsRightAnswer};
ghost use Rattle.ae_state.specs.Fitting.{FitsStore};
ghost use Rattle.ae_state.specs.Names.{system_now};
ghost use Rattle.ae_writable.specs.Numbers.{HasLowestNumerals};
ghost use Rattle.ae_writable.specs.Writable.{IsWritable, IsWritableRule};

use ae_combine::State;
use ae_core::lists::Boxed;
use ae_core::problems::Problem;
use ae_evaluation::laws::saturated_goals_have_no_ground_proof;
use ae_first_clauses::FirstClauses;
use ae_goal_search::search;
use ae_ground_proofs::laws::refutations_are_ground;
use ae_journal::answers::Answer;
use ae_journal::journal::Journal;
use ae_journal::systems::Saturated;
use ae_open_states::open_state;
use ae_refuted::refutation;
use ae_sat::solver::Solver;
use ae_search_options::limits::Limits;
use ae_search_options::picks::Pick;
use ae_store::store::Store;
use ae_stories::story;
use ae_theory::theory::Fail;
use ae_writable_journals::laws::legal_journals_are_writable;
use std::alloc::{AllocError, Global};

/// The state that a search shows which has nothing left to do: the literals that are true, with the system of the theory.
fn state_of(alloc: Global, store: &Store, solver: &Solver<State>) -> Result<Saturated, AllocError>
    requires fits { FitsStore solver.now.theory store.now }
    ensures is { IfOk result (λ state. state ≡ shown solver.now.propagation.trail (system_now solver.now.theory)) }
    ensures rules { IfOk result (λ state. AllByRecursion (IsWritableRule solver.now.theory.signature) (system_now solver.now.theory).rules) }
{
    let system = solver.theory().system(alloc, store)?;
    open_state(alloc, solver.trail(), system)
}

/// The same of a solver that is let go.
fn opened(alloc: Global, store: &Store, solver: Solver<State>) -> Result<Saturated, AllocError>
    requires fits { FitsStore solver.theory store.now }
    ensures is { IfOk result (λ state. state ≡ shown solver.propagation.trail (system_now solver.theory)) }
    ensures rules { IfOk result (λ state. AllByRecursion (IsWritableRule solver.theory.signature) (system_now solver.theory).rules) }
{
    let held = Boxed::new(alloc, solver)?;
    state_of(alloc, store, held.get())
}

/// Searches from the first lines, and says what the search comes to.
pub fn answer_from(
    alloc: Global,
    problem: &Problem,
    goal: usize,
    store: &Store,
    first: FirstClauses,
    pick: &Pick,
    limits: &Limits,
) -> Result<Answer, AllocError>
    requires started { IsStarted problem.now goal first.lines.items first.clauses store.now }
    ensures right { IfOk result (IsRightAnswer problem.now goal limits.now) }
    ensures written { IfOk result (λ answer. HasLowestNumerals problem.now → IsWritable problem.now.signature answer) }
{
    refutations_are_ground();
    saturated_goals_have_no_ground_proof();
    legal_journals_are_writable();
    let FirstClauses { mut lines, clauses } = first;
    let mut journal = Journal::new(alloc, limits.steps)?;
    let theory = State::new(alloc, &problem.signature)?;
    let end = search(
        alloc,
        problem,
        goal,
        store,
        clauses.as_slice(),
        theory,
        pick,
        &mut journal,
        &mut lines,
    );
    let _counted = journal.counted();
    match end {
        Ok(None) => {
            let proof = refutation(lines);
            Ok(Answer::Valid(proof))
        }
        Ok(Some(solver)) => {
            let state = opened(alloc, store, solver)?;
            Ok(Answer::Unknown(state))
        }
        Err(Fail::Steps) => {
            let told = story(alloc, store, journal)?;
            Ok(Answer::Steps(told))
        }
        Err(Fail::Number(at)) => {
            let told = story(alloc, store, journal)?;
            Ok(Answer::Number { story: told, at })
        }
        Err(Fail::Memory(failed)) => Err(failed),
    }
}
