//! The clauses of names of enumerations.
ghost use Rattle.std.specs.Prelude.{◌<◌, ◌≡◌, ◌++◌, ◌∷◌, [], ℕ, List, length, slice_get, true, Some, None, IsTrue, OnOk};
ghost use Rattle.std.specs.List.{Contains};
ghost use Rattle.ae_between_rounds.specs.Between.{Holds, IsSearchingBelow};
ghost use Rattle.ae_block_constants.specs.declared.opened.Opened.{Opened};
ghost use Rattle.ae_between_rounds.specs.Rewriting.{IsMarkOf};
ghost use Rattle.ae_core.specs.declared.problems.Problem.{Problem as ProblemOf};
ghost use Rattle.ae_core.specs.declared.proofs.ClauseLine.TheVariants.{Exh};
ghost use Rattle.ae_core.specs.declared.terms.Sort.{out-Sort};
ghost use Rattle.ae_entered_names.specs.Inner.Choosing.{AreNamedLast, GoesOn, HaveStayed, IsChosen, IsChosenAt, IsOneAlone, IsSameBeside};
ghost use Rattle.ae_journal.specs.declared.lines.Line.{Line as LineOf};
ghost use Rattle.ae_rules.specs.Derivations.{clause_ok};
ghost use Rattle.ae_rules.specs.Instances as instances;
ghost use Rattle.ae_sat.specs.Standing.{IsOneOf};
ghost use Rattle.ae_searching.specs.Searching.{IsSearching};
ghost use Rattle.ae_searching.specs.Steps.{MayCome};
ghost use Rattle.ae_state.specs.Fitting.{FitsStore};
ghost use Rattle.ae_state.specs.Names.{assumed_in};
ghost use Rattle.ae_state.specs.Stepping.{IsInStep};
ghost use Rattle.ae_store.specs.Stores.{Stored};
ghost use Rattle.ae_store.specs.declared.nodes.Node.{Node as NodeOf};
ghost use Rattle.ae_theory.specs.Names.{terms_in};

use ae_between_rounds::search::{Search, State, Task};
use ae_brought_clauses::bring_clause;
use ae_calc::endings::constant_head;
use ae_calc::enumerations::choices_of;
use ae_core::copies::copy_term;
use ae_core::equality::same_head;
use ae_core::formulas::{Clause, Lit};
use ae_core::lists::{Boxed, List};
use ae_core::problems::Signature;
use ae_core::proofs::ClauseLine;
use ae_core::terms::{Head, Term};
use ae_data::enumerations::exhaust;
use ae_sat::solver::Solver;
use ae_searching::adding::add_line;
use ae_searching::growing::names_grow;
use ae_store::store::Store;
use std::alloc::{AllocError, Global};

/// Whether a head is among others.
fn has_head(heads: &[Head], own: Head) -> bool
    ensures { IsTrue result → Contains heads.now own }
{
    for head in heads {
        if same_head(*head, own) {
            return true;
        }
    }
    false
}

/// Whether a term is one of the heads, without sorts and arguments.
fn is_one_alone(heads: &[Head], term: &Term) -> bool
    ensures { IsTrue result → IsOneAlone heads.now term.now }
{
    match constant_head(term) {
        None => false,
        Some(own) => has_head(heads, own),
    }
}

/// Names the terms of a clause without quantified parts at the greatest generation, so that nothing is matched by those that are new.
fn name_terms(
    alloc: Global,
    signature: &Signature,
    store: &mut Store,
    clause: &[Lit],
) -> Result<(), AllocError>
    requires same { signature.now ≡ store.old.signature }
    requires sorted { clause_ok signature.now clause.now ≡ true }
    ensures { OnOk result (AreNamedLast store.old store.new clause.now) }
{
    let mut none = List::new(alloc);
    bring_clause(alloc, signature, store, &mut none, &[], clause, u32::MAX)
}

/// Adds the clause of a term of an enumeration, with its line.
fn add_choice_line(
    alloc: Global,
    solver: &mut Solver<State>,
    lines: &mut Vec<ClauseLine>,
    term: &Term,
    clause: Clause,
) -> Result<(), AllocError>
    ensures searching { (p : ProblemOf) (g bound level : ℕ) (s : Stored) (opened : List Opened) (js : List LineOf) → MayCome p g s opened lines.old.items js (Exh term.now) clause →
        IsSearching FitsStore assumed_in IsMarkOf IsInStep p g bound s opened level solver.old lines.old.items js →
        OnOk result (IsSearching FitsStore assumed_in IsMarkOf IsInStep p g bound s opened level solver.new lines.new.items js) }
    ensures lines { OnOk result (lines.new.items ≡ lines.old.items ++ Exh term.now ∷ []) }
    ensures clauses { OnOk result (solver.new.propagation.clauses ≡ solver.old.propagation.clauses ++ clause ∷ []) }
    ensures trail { solver.new.propagation.trail ≡ solver.old.propagation.trail }
    ensures theory { solver.new.theory ≡ solver.old.theory }
{
    let term = copy_term(alloc, term)?;
    add_line(solver, lines, ClauseLine::Exh { term }, clause)
}

/// Adds the clause that a term is one of the constructors of its sort, and names these.
fn add_clause(
    task: Task<'_>,
    search: &mut Search,
    term: &Term,
    clause: Clause,
) -> Result<(), AllocError>
    requires searching { (level : ℕ) × IsSearchingBelow task.problem.now task.goal task.generations level search.old }
    requires holds { Holds task.problem.now task.goal task.generations search.old }
    requires there { Contains (terms_in search.old.store) term.now }
    requires clause { instances.exhaustion task.problem.now.signature term.now ≡ Some clause }
    ensures goes_on { OnOk result (GoesOn task.entry.problem.now task.entry.goal task.entry.generations search.old search.new) }
    ensures added { OnOk result (IsOneOf search.new.solver.propagation.clauses clause) }
    ensures looked { search.new.looked ≡ search.old.looked }
    ensures beside { IsSameBeside search.old search.new }
{
    name_terms(
        task.alloc,
        &task.problem.signature,
        &mut search.store,
        clause.as_slice(),
    )?;
    let _names = search.store.len();
    names_grow(&search.solver);
    add_choice_line(
        task.alloc,
        &mut search.solver,
        &mut search.lines,
        term,
        clause,
    )?;
    Ok(())
}

/// Adds the clause of a term that is named, if it has one.
fn add_for_term(task: Task<'_>, search: &mut Search, term: &Term) -> Result<(), AllocError>
    requires searching { (level : ℕ) × IsSearchingBelow task.problem.now task.goal task.generations level search.old }
    requires holds { Holds task.problem.now task.goal task.generations search.old }
    requires there { Contains (terms_in search.old.store) term.now }
    ensures goes_on { OnOk result (GoesOn task.entry.problem.now task.entry.goal task.entry.generations search.old search.new) }
    ensures chosen { OnOk result (IsChosen task.entry.problem.now.signature search.new.solver.propagation.clauses term.now) }
    ensures looked { search.new.looked ≡ search.old.looked }
    ensures beside { IsSameBeside search.old search.new }
{
    match exhaust(task.alloc, &task.problem.signature, term)? {
        None => Ok(()),
        Some(clause) => add_clause(task, search, term, clause),
    }
}

/// Adds what a name asks for whose sort has these constructors.
fn add_for(
    task: Task<'_>,
    search: &mut Search,
    name: usize,
    heads: &[Head],
) -> Result<(), AllocError>
    requires searching { (level : ℕ) × IsSearchingBelow task.problem.now task.goal task.generations level search.old }
    requires holds { Holds task.problem.now task.goal task.generations search.old }
    requires within { name < length search.old.store.nodes }
    requires heads { (x : NodeOf) → slice_get search.old.store.nodes name ≡ Some x → instances.choices_of task.problem.now.signature (out-Sort x.sort) ≡ Some heads.now }
    ensures goes_on { OnOk result (GoesOn task.entry.problem.now task.entry.goal task.entry.generations search.old search.new) }
    ensures chosen { OnOk result (IsChosenAt task.entry.problem.now.signature (terms_in search.new.store) name search.new.solver.propagation.clauses) }
    ensures looked { search.new.looked ≡ search.old.looked }
    ensures beside { IsSameBeside search.old search.new }
{
    let term = search.store.term(name)?;
    let held = Boxed::new(task.alloc, term)?;
    if is_one_alone(heads, held.get()) {
        return Ok(());
    }
    add_for_term(task, search, held.get())?;
    Ok(())
}

/// Adds what a name asks for: where its sort is an enumeration and it is no constructor, the clause that it is one of these.
pub(crate) fn add_choice(task: Task<'_>, search: &mut Search, name: usize) -> Result<(), AllocError>
    requires searching { (level : ℕ) × IsSearchingBelow task.problem.now task.goal task.generations level search.old }
    requires holds { Holds task.problem.now task.goal task.generations search.old }
    requires within { name < length search.old.store.nodes }
    ensures goes_on { OnOk result (GoesOn task.entry.problem.now task.entry.goal task.entry.generations search.old search.new) }
    ensures chosen { OnOk result (IsChosenAt task.entry.problem.now.signature (terms_in search.new.store) name search.new.solver.propagation.clauses) }
    // Nothing comes in where its sort is no enumeration.
    ensures plain { ((x : NodeOf) → slice_get search.old.store.nodes name ≡ Some x → instances.choices_of task.entry.problem.now.signature (out-Sort x.sort) ≡ None) → OnOk result (HaveStayed search.old search.new) }
    ensures looked { search.new.looked ≡ search.old.looked }
    ensures beside { IsSameBeside search.old search.new }
{
    let node = search.store.node(name);
    match choices_of(task.alloc, &task.problem.signature, &node.sort)? {
        None => Ok(()),
        Some(heads) => add_for(task, search, name, heads.as_slice()),
    }
}
