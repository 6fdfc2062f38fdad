//! The clause of the order of two numbers.
ghost use Rattle.std.specs.Prelude.{◌<◌, ◌≤◌, ◌≡◌, ◌++◌, ◌∷◌, [], ℕ, List, length, slice_get, true, Some, None, IfOk, OnOk};
ghost use Rattle.ae_added_orders.specs.Inner.Added.{Adds, AreNamedLast};
ghost use Rattle.ae_added_orders.specs.Ordering.{MayBeOrdered};
ghost use Rattle.ae_between_rounds.specs.Between.{IsBetweenRounds};
ghost use Rattle.ae_between_rounds.specs.Passing.{Passes};
ghost use Rattle.ae_block_constants.specs.declared.opened.Opened.{Opened};
ghost use Rattle.ae_between_rounds.specs.Rewriting.{IsMarkOf};
ghost use Rattle.ae_core.specs.declared.problems.Problem.{Problem as ProblemOf};
ghost use Rattle.ae_core.specs.declared.proofs.ClauseLine.TheVariants.{Tri};
ghost use Rattle.ae_core.specs.declared.terms.Sort.{out-Sort};
ghost use Rattle.ae_journal.specs.declared.lines.Line.{Line as LineOf};
ghost use Rattle.ae_rules.specs.Clauses.{Clause as ClauseOf};
ghost use Rattle.ae_rules.specs.Derivations.{clause_ok};
ghost use Rattle.ae_rules.specs.Instances as instances;
ghost use Rattle.ae_sat.specs.Standing.{IsOneOf};
ghost use Rattle.ae_searching.specs.Searching.{IsSearching};
ghost use Rattle.ae_searching.specs.Steps.{MayCome};
ghost use Rattle.ae_state.specs.Fitting.{FitsStore};
ghost use Rattle.ae_state.specs.Names.{assumed_in};
ghost use Rattle.ae_state.specs.Stepping.{IsInStep};
ghost use Rattle.ae_store.specs.Stores.{Stored};
ghost use Rattle.ae_store.specs.declared.nodes.Node.{Node as NodeOf};

use ae_between_rounds::search::{Search, State, Task};
use ae_brought_clauses::bring_clause;
use ae_calc::enumerations::trichotomy;
use ae_core::copies::copy_term;
use ae_core::formulas::{Clause, Lit};
use ae_core::lists::List;
use ae_core::problems::Signature;
use ae_core::proofs::ClauseLine;
use ae_core::terms::Term;
use ae_entered_names::enter_names;
use ae_sat::solver::Solver;
use ae_searching::adding::add_line;
use ae_searching::growing::names_grow;
use ae_store::store::Store;
use std::alloc::{AllocError, Global};

/// Names the terms of a clause without quantified parts at the greatest generation, so that nothing is matched by those that are new.
fn name_terms(
    alloc: Global,
    signature: &Signature,
    store: &mut Store,
    clause: &[Lit],
) -> Result<(), AllocError>
    requires same { signature.now ≡ store.old.signature }
    requires sorted { clause_ok signature.now clause.now ≡ true }
    ensures { OnOk result (AreNamedLast store.old store.new clause.now) }
{
    let mut none = List::new(alloc);
    bring_clause(alloc, signature, store, &mut none, &[], clause, u32::MAX)
}

/// Adds the clause of two terms, with its line.
fn add_order_line(
    alloc: Global,
    solver: &mut Solver<State>,
    lines: &mut Vec<ClauseLine>,
    left: &Term,
    right: &Term,
    clause: Clause,
) -> Result<(), AllocError>
    ensures searching { (p : ProblemOf) (g bound level : ℕ) (s : Stored) (opened : List Opened) (js : List LineOf) → MayCome p g s opened lines.old.items js (Tri left.now right.now) clause →
        IsSearching FitsStore assumed_in IsMarkOf IsInStep p g bound s opened level solver.old lines.old.items js →
        OnOk result (IsSearching FitsStore assumed_in IsMarkOf IsInStep p g bound s opened level solver.new lines.new.items js) }
    ensures lines { OnOk result (lines.new.items ≡ lines.old.items ++ Tri left.now right.now ∷ []) }
    ensures clauses { OnOk result (solver.new.propagation.clauses ≡ solver.old.propagation.clauses ++ clause ∷ []) }
    ensures trail { solver.new.propagation.trail ≡ solver.old.propagation.trail }
    ensures theory { solver.new.theory ≡ solver.old.theory }
{
    let left = copy_term(alloc, left)?;
    let right = copy_term(alloc, right)?;
    add_line(solver, lines, ClauseLine::Tri { left, right }, clause)
}

/// Adds the clause that one of two numbers is below the other, or they are equal, and names what stands in it.
fn add_clause(
    task: Task<'_>,
    search: &mut Search,
    left: &Term,
    right: &Term,
    clause: Clause,
) -> Result<(), AllocError>
    requires between { IsBetweenRounds task.problem.now task.goal task.generations search.old }
    requires may { MayBeOrdered task.problem.now task.goal search.old left.now right.now }
    requires clause { instances.trichotomy task.problem.now.signature left.now right.now ≡ Some clause }
    ensures adds { OnOk result (Adds task.entry.problem.now task.entry.goal task.entry.generations search.old search.new) }
    ensures added { OnOk result (IsOneOf search.new.solver.propagation.clauses clause) }
    ensures clauses { OnOk result (search.new.solver.propagation.clauses ≡ search.old.solver.propagation.clauses ++ clause ∷ []) }
    // The names that are new are of no enumeration.
    ensures plain { OnOk result ((n : ℕ) (x : NodeOf) → search.new.looked ≤ n → slice_get search.new.store.nodes n ≡ Some x →
        instances.choices_of task.entry.problem.now.signature (out-Sort x.sort) ≡ None) }
    ensures trail { search.new.solver.propagation.trail ≡ search.old.solver.propagation.trail }
    ensures theory { search.new.solver.theory ≡ search.old.solver.theory }
    ensures journal { search.new.journal ≡ search.old.journal }
    ensures blocks { search.new.blocks ≡ search.old.blocks }
{
    name_terms(
        task.alloc,
        &task.problem.signature,
        &mut search.store,
        clause.as_slice(),
    )?;
    let _names = search.store.len();
    names_grow(&search.solver);
    add_order_line(
        task.alloc,
        &mut search.solver,
        &mut search.lines,
        left,
        right,
        clause,
    )?;
    Ok(())
}

/// The clause that one of two numbers is below the other, or they are equal.
fn order_clause(task: Task<'_>, left: &Term, right: &Term) -> Result<Clause, AllocError>
    requires numbers { (c : ClauseOf) × (instances.trichotomy task.problem.now.signature left.now right.now ≡ Some c) }
    ensures { IfOk result (λ clause. instances.trichotomy task.entry.problem.now.signature left.now right.now ≡ Some clause) }
{
    match trichotomy(task.alloc, &task.problem.signature, left, right)? {
        None => unreachable!(),
        Some(clause) => Ok(clause),
    }
}

/// Adds the clause that one of two numbers is below the other, or they are equal, with its line, and enters the names that are new. `Err` where there is no
/// memory.
pub fn add_order(
    task: Task<'_>,
    search: &mut Search,
    left: &Term,
    right: &Term,
) -> Result<(), AllocError>
    requires between { IsBetweenRounds task.problem.now task.goal task.generations search.old }
    requires may { MayBeOrdered task.problem.now task.goal search.old left.now right.now }
    requires numbers { (c : ClauseOf) × (instances.trichotomy task.problem.now.signature left.now right.now ≡ Some c) }
    ensures between { OnOk result (IsBetweenRounds task.entry.problem.now task.entry.goal task.entry.generations search.new) }
    // A line came in, and with it the clause, and no other.
    ensures lines { OnOk result (length search.old.lines.items < length search.new.lines.items) }
    ensures added { (c : ClauseOf) → instances.trichotomy task.entry.problem.now.signature left.now right.now ≡ Some c → OnOk result (IsOneOf search.new.solver.propagation.clauses c) }
    ensures clauses { (c : ClauseOf) → instances.trichotomy task.entry.problem.now.signature left.now right.now ≡ Some c →
        OnOk result (search.new.solver.propagation.clauses ≡ search.old.solver.propagation.clauses ++ c ∷ []) }
    // Nothing was noted, and nothing that there was is gone.
    ensures passes { OnOk result (Passes search.old search.new) }
    ensures trail { search.new.solver.propagation.trail ≡ search.old.solver.propagation.trail }
    ensures blocks { search.new.blocks ≡ search.old.blocks }
    ensures journal { search.new.journal ≡ search.old.journal }
{
    let clause = order_clause(task, left, right)?;
    add_clause(task, search, left, right, clause)?;
    enter_names(task, search)?;
    Ok(())
}
