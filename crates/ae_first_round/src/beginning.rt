//! A search with the first clauses of a goal.
ghost use Rattle.std.specs.Prelude.{◌≡◌, [], length, Some, IfOk};
ghost use Rattle.ae_between_rounds.specs.Between.{Holds, IsBetweenRounds, IsSearchingBelow};
ghost use Rattle.ae_between_rounds.specs.Rewriting.{IsMarkOf};
ghost use Rattle.ae_core.specs.Signatures.{IsLawfulProblem};
ghost use Rattle.ae_core.specs.declared.formulas.Formula.{Formula};
ghost use Rattle.ae_first_clauses.specs.First.{AreFirst};
ghost use Rattle.ae_known.specs.Index.{HasHeads};
ghost use Rattle.ae_propagation.specs.Settled.{last_level};
ghost use Rattle.ae_rules.specs.Derivations.{goal_body};
ghost use Rattle.ae_sat.specs.Search.{AllNamed};
ghost use Rattle.ae_searching.specs.Searching.{IsAliveIn};
ghost use Rattle.ae_started.specs.Started.{AreOwn};
ghost use Rattle.ae_state.specs.Fitting.{FitsStore};
ghost use Rattle.ae_state.specs.Names.{assumed_in};
ghost use Rattle.ae_state.specs.Stepping.{IsInStep};
ghost use Rattle.ae_store.specs.Stores.{Stored};

use crate::blocks::first_blocks;
use crate::naming::first_named;
use ae_between_rounds::search::{Instantiated, Search, State, Task};
use ae_core::formulas::Clause;
use ae_core::lists::List;
use ae_core::problems::Signature;
use ae_entered_names::enter_names;
use ae_first_clauses::{FirstClauses, begin as first_clauses};
use ae_inst::instances::Instances;
use ae_journal::journal::Journal;
use ae_known::known::Known;
use ae_owners::finding::axiom_owners;
use ae_sat::solver::Solver;
use ae_searching::growing::search_is_lawful;
use ae_started::started;
use std::alloc::{AllocError, Global};

/// A solver with clauses, each stated by the line of its number.
fn solver_of(
    alloc: Global,
    signature: &Signature,
    clauses: &[Clause],
) -> Result<Solver<State>, AllocError>
    ensures alive { (s : Stored) → s.signature ≡ signature.now → AllNamed s clauses.now → IfOk result (λ o. IsAliveIn FitsStore assumed_in IsMarkOf IsInStep s o []) }
    ensures clauses { IfOk result (λ o. o.propagation.clauses ≡ clauses.now) }
    ensures places { IfOk result (λ o. AreOwn (length clauses.now) o.places) }
    ensures trail { IfOk result (λ o. o.propagation.trail ≡ []) }
    ensures expanded { IfOk result (λ o. o.expanded ≡ 0) }
{
    let theory = State::new(alloc, signature)?;
    started(alloc, theory, clauses)
}

/// No instance.
fn no_instances(alloc: Global) -> Instantiated
    ensures made { result.made ≡ [] }
    ensures taken { result.taken.taken ≡ [] }
{
    Instantiated {
        taken: Instances::new(alloc),
        made: List::new(alloc),
        turn: 0,
    }
}

/// No name in the index.
fn no_names(alloc: Global) -> Known
    ensures { HasHeads [] result }
{
    Known::new(alloc)
}

/// A search with the first clauses, stated by their lines, none of whose names were looked at.
fn started_with(task: Task<'_>, first: FirstClauses) -> Result<Search, AllocError>
    requires lawful { IsLawfulProblem task.problem.now }
    requires first { AreFirst task.problem.now task.goal first.lines.items first.clauses }
    ensures searching { IfOk result (λ o. IsSearchingBelow task.entry.problem.now task.entry.goal task.entry.generations (last_level o.solver.propagation.trail) o) }
    ensures holds { IfOk result (Holds task.entry.problem.now task.entry.goal task.entry.generations) }
    ensures none { IfOk result (λ o. (o.journal.lines ≡ []) × (o.journal.limit ≡ task.entry.steps)) }
{
    let alloc = task.alloc;
    let signature = &task.problem.signature;
    let named = first_named(alloc, signature, first.clauses.as_slice())?;
    let opened = first_blocks(alloc, task.problem, task.goal)?;
    let owners = axiom_owners(alloc, task.problem, task.goal)?;
    let journal = Journal::new(alloc, task.steps)?;
    let solver = solver_of(alloc, signature, first.clauses.as_slice())?;
    search_is_lawful(&solver);
    Ok(Search {
        store: named.store,
        solver,
        journal,
        lines: first.lines,
        blocks: opened,
        ages: named.ages,
        known: no_names(alloc),
        looked: 0,
        owners,
        instances: no_instances(alloc),
    })
}

/// A search that begins with the hypotheses without type variables, the negation of the goal, and where the goal is a `forall` block, its body with
/// constants for its variables. `Err` where there is no memory.
pub fn begin(task: Task<'_>) -> Result<Search, AllocError>
    requires lawful { IsLawfulProblem task.problem.now }
    requires goal { (f : Formula) × (goal_body task.problem.now task.goal ≡ Some f) }
    ensures between { IfOk result (IsBetweenRounds task.entry.problem.now task.entry.goal task.entry.generations) }
    ensures none { IfOk result (λ o. (o.journal.lines ≡ []) × (o.journal.limit ≡ task.entry.steps)) }
{
    let first = first_clauses(task.alloc, task.problem, task.goal)?;
    let mut search = started_with(task, first)?;
    match enter_names(task, &mut search) {
        Ok(()) => Ok(search),
        Err(failed) => {
            drop(search);
            Err(failed)
        }
    }
}
