//! The answer that a search comes to.
ghost use Rattle.std.specs.Prelude.{◌≡◌, ℕ, [], IfOk, Ok};
ghost use Rattle.std.specs.List.{AllByRecursion};
ghost use Rattle.ae_between_rounds.specs.Finished.{shown_at};
ghost use Rattle.ae_core.specs.Signatures.{IsLawfulProblem};
ghost use Rattle.ae_core.specs.declared.problems.Problem.{Problem};
ghost use Rattle.ae_journal.specs.Answers.{IsAnswer};
ghost use Rattle.ae_rounds.specs.Ended.{HasEnded, HasFailed, IsFull, IsRefuted, IsSettledAt, IsWide};
ghost use Rattle.ae_rules.specs.Derivations.{AreAllowed, Derives};
ghost use Rattle.ae_sat.specs.Search.{EndsEmpty};
ghost use Rattle.ae_state.specs.Fitting.{FitsStore};
ghost use Rattle.ae_state.specs.Names.{system_now};
ghost use Rattle.ae_stories.specs.Told.{told};
ghost use Rattle.ae_writable.specs.Numbers.{HasLowestNumerals};
ghost use Rattle.ae_writable.specs.Writable.{IsWritable, IsWritableRule};

use crate::progress::End;
use ae_between_rounds::search::{Search, Task};
use ae_core::lists::List;
use ae_core::proofs::Proof;
use ae_finished_rounds::laws::finished_rounds_are_saturated;
use ae_journal::answers::{Answer, WideAt};
use ae_journal::journal::Journal;
use ae_journal::lines::Story;
use ae_journal::systems::{PointAt, Saturated};
use ae_open_states::open_state;
use ae_refuted::refutation;
use ae_stories::story;
use ae_theory::theory::Fail;
use ae_told_searches::laws::searches_are_told;
use ae_writable_journals::laws::legal_journals_are_writable;
use std::alloc::{AllocError, Global};
use std::mem::replace;

/// The lines of a search that is refuted, as a proof. They are taken out of it.
fn proof_of(alloc: Global, search: &mut Search) -> Proof
    ensures is { result ≡ record { lines = search.old.lines.items } }
    ensures derives { (p : Problem) (g : ℕ) → AreAllowed p g [] search.old.lines.items → EndsEmpty search.old.lines.items → Derives p g result }
{
    let lines = replace(&mut search.lines, Vec::new(alloc));
    refutation(lines)
}

/// The names of a search with the lines of its journal. The journal is taken out of it.
fn story_of(alloc: Global, search: &mut Search) -> Result<Story, AllocError>
    ensures { IfOk result (λ y. y ≡ told search.old.store search.old.journal.lines) }
{
    let empty = Journal::new(alloc, 0)?;
    let journal = replace(&mut search.journal, empty);
    story(alloc, &search.store, journal)
}

/// The literals that are true, with the system of the theory.
fn shown(alloc: Global, search: &Search) -> Result<Saturated, AllocError>
    requires fits { FitsStore search.now.solver.theory search.now.store }
    ensures is { IfOk result (λ state. state ≡ shown_at search.now []) }
    ensures rules { IfOk result (λ state. AllByRecursion (IsWritableRule search.now.solver.theory.signature) (system_now search.now.solver.theory).rules) }
{
    let system = search.solver.theory().system(alloc, &search.store)?;
    open_state(alloc, search.solver.trail(), system)
}

/// A state with another point.
fn with_point(state: Saturated, point: List<PointAt>) -> Saturated
    ensures { result ≡ record state { point = point } }
{
    let Saturated {
        literals,
        system,
        ..
    } = state;
    Saturated {
        literals,
        system,
        point,
    }
}

/// The state that a search shows which has nothing left to do, with a point of its inequalities.
fn state_of(alloc: Global, search: &Search, point: List<PointAt>) -> Result<Saturated, AllocError>
    requires fits { FitsStore search.now.solver.theory search.now.store }
    ensures is { IfOk result (λ state. state ≡ shown_at search.now point) }
    ensures rules { IfOk result (λ state. AllByRecursion (IsWritableRule search.now.solver.theory.signature) (system_now search.now.solver.theory).rules) }
{
    let state = shown(alloc, search)?;
    Ok(with_point(state, point))
}

/// The answer of a search that is refuted: its proof.
fn refuted_answer(task: Task<'_>, search: &mut Search) -> Answer
    requires refuted { IsRefuted task.problem.now task.goal task.generations search.old }
    ensures answer { IsAnswer task.entry.problem.now task.entry.goal task.entry.steps task.entry.generations result }
    ensures written { HasLowestNumerals task.entry.problem.now → IsWritable task.entry.problem.now.signature result }
{
    let proof = proof_of(task.alloc, search);
    Answer::Valid(proof)
}

/// The answer of a search that has nothing left to do: the state that it shows, with the point.
fn open_answer(task: Task<'_>, search: &Search, point: List<PointAt>) -> Result<Answer, AllocError>
    requires settled { IsSettledAt task.problem.now task.goal task.generations search.now point }
    ensures answer { IfOk result (IsAnswer task.entry.problem.now task.entry.goal task.entry.steps task.entry.generations) }
    ensures written { HasLowestNumerals task.entry.problem.now → IfOk result (IsWritable task.entry.problem.now.signature) }
{
    finished_rounds_are_saturated();
    let state = state_of(task.alloc, search, point)?;
    Ok(Answer::Unknown(state))
}

/// The answer of a search whose journal is full: the journal.
fn full_answer(task: Task<'_>, search: &mut Search) -> Result<Answer, AllocError>
    requires lawful { IsLawfulProblem task.problem.now }
    requires full { IsFull task.problem.now task.goal task.generations search.old }
    requires limit { search.old.journal.limit ≡ task.steps }
    ensures answer { IfOk result (IsAnswer task.entry.problem.now task.entry.goal task.entry.steps task.entry.generations) }
    ensures written { HasLowestNumerals task.entry.problem.now → IfOk result (IsWritable task.entry.problem.now.signature) }
{
    searches_are_told();
    legal_journals_are_writable();
    let story = story_of(task.alloc, search)?;
    Ok(Answer::Steps(story))
}

/// The answer of a search in which a number leaves the limits: the journal, and the step.
fn wide_answer(task: Task<'_>, search: &mut Search, at: WideAt) -> Result<Answer, AllocError>
    requires lawful { IsLawfulProblem task.problem.now }
    requires wide { IsWide task.problem.now task.goal task.generations search.old at }
    requires limit { search.old.journal.limit ≡ task.steps }
    ensures answer { IfOk result (IsAnswer task.entry.problem.now task.entry.goal task.entry.steps task.entry.generations) }
    ensures written { HasLowestNumerals task.entry.problem.now → IfOk result (IsWritable task.entry.problem.now.signature) }
{
    searches_are_told();
    legal_journals_are_writable();
    let _count = search.journal.counted();
    let story = story_of(task.alloc, search)?;
    Ok(Answer::Number { story, at })
}

/// The answer of a search that ended by itself.
fn ended_answer(task: Task<'_>, search: &mut Search, end: End) -> Result<Answer, AllocError>
    requires ended { HasEnded task.problem.now task.goal task.generations search.old (Ok end) }
    ensures answer { IfOk result (IsAnswer task.entry.problem.now task.entry.goal task.entry.steps task.entry.generations) }
    ensures written { HasLowestNumerals task.entry.problem.now → IfOk result (IsWritable task.entry.problem.now.signature) }
{
    match end {
        End::Refuted => Ok(refuted_answer(task, search)),
        End::Open(point) => open_answer(task, search, point),
    }
}

/// The answer of a search that was stopped; `Err` where that was for want of memory, or there is none for the answer.
fn stopped_answer(task: Task<'_>, search: &mut Search, fail: Fail) -> Result<Answer, AllocError>
    requires lawful { IsLawfulProblem task.problem.now }
    requires failed { HasFailed task.problem.now task.goal task.generations search.old fail }
    requires limit { search.old.journal.limit ≡ task.steps }
    ensures answer { IfOk result (IsAnswer task.entry.problem.now task.entry.goal task.entry.steps task.entry.generations) }
    ensures written { HasLowestNumerals task.entry.problem.now → IfOk result (IsWritable task.entry.problem.now.signature) }
{
    match fail {
        Fail::Steps => full_answer(task, search),
        Fail::Number(at) => wide_answer(task, search, at),
        Fail::Memory(refused) => Err(refused),
    }
}

/// What a search comes to, by how it ended. The proof or the journal is taken out of the search.
pub fn answer_of(
    task: Task<'_>,
    search: &mut Search,
    end: Result<End, Fail>,
) -> Result<Answer, AllocError>
    requires lawful { IsLawfulProblem task.problem.now }
    requires ended { HasEnded task.problem.now task.goal task.generations search.old end }
    requires limit { search.old.journal.limit ≡ task.steps }
    ensures answer { IfOk result (IsAnswer task.entry.problem.now task.entry.goal task.entry.steps task.entry.generations) }
    ensures written { HasLowestNumerals task.entry.problem.now → IfOk result (IsWritable task.entry.problem.now.signature) }
{
    match end {
        Ok(how) => ended_answer(task, search, how),
        Err(fail) => stopped_answer(task, search, fail),
    }
}
