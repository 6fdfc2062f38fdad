//! Bindings of variables to sorts, and most general unifiers.

ghost use Rattle.std.specs.Prelude.{◌≡◌, ℕ, ◌↔◌, ◌<◌, [], ◌∷◌, length, IfOk, IfErr, OnOk, OnErr};
ghost use Rattle.ae_core.specs.declared.terms.Sort.{Sort, Var};
ghost use Rattle.ae_types.specs.Bound.{bound, IsGiven, IsSound};
ghost use Rattle.ae_types.specs.Clashes.{IsClash, IsPair, Refutes};
ghost use Rattle.ae_types.specs.Inner.Enters.{SheetWell, sheet, nothing};
ghost use Rattle.ae_types.specs.Inner.Graphs.{GraphWell, rewound, slots_of};
ghost use Rattle.ae_types.specs.Inner.Joins.{Blames, Closed, PairsWell};
ghost use Rattle.ae_types.specs.Inner.Levels.{Settled};
ghost use Rattle.ae_types.specs.Inner.Walks.{Unmarked, mark_at};
ghost use Rattle.ae_types.specs.declared.cycles.Mark.TheVariants.{New};
ghost use Rattle.ae_types.specs.Substitutions.{put, MakesEqual, Unifies, IsMoreGeneral, IsIdempotent, Respects};

use crate::cycles::{Mark, extend, settle, settle_from};
use crate::enter::{enter, enter_pairs};
use crate::graph::{Change, Class, Graph, Node, find_place, flatten, resolve, rewind};
use crate::joins::{Pair, close};
use crate::pairs::{Clash, SortPair};
use ae_core::equality::same_sort;
use ae_core::lists::List;
use ae_core::terms::Sort;
use std::alloc::{AllocError, Global};
use std::collections::BTreeMap;
use std::marker::Model;

// A graph without places.
fn empty_graph(alloc: Global) -> Graph
    ensures { sheet result ≡ nothing }
{
    Graph {
        nodes: List::new(alloc),
        classes: List::new(alloc),
        names: BTreeMap::new(alloc),
    }
}

// Makes the two places of each pair one, and looks whether there is a solution.
fn solve(
    alloc: Global,
    nodes: &[Node],
    classes: &mut List<Class>,
    log: &mut List<Change>,
    todo: &mut List<Pair>,
) -> Result<(), Clash>
    requires well { GraphWell nodes.now classes.old }
    requires todo { PairsWell (length nodes.now) todo.old }
    ensures closed { OnOk result (Closed nodes.now classes.old classes.new todo.old) }
    ensures settled { OnOk result (Settled (slots_of nodes.now classes.new)) }
    ensures err { IfErr result (λ clash. Blames nodes.now classes.old todo.old clash) }
    ensures rewinds { rewound classes.new log.new ≡ rewound classes.old log.old }
{
    let mut joined = List::new(alloc);
    close(alloc, nodes, classes, log, todo, &mut joined)?;
    flatten(classes, log)?;
    settle(alloc, nodes, classes.as_slice())
}

// The same in a graph that has a solution. It looks for cycles through the places that it joins, and nowhere else.
fn solve_more(
    alloc: Global,
    nodes: &[Node],
    classes: &mut List<Class>,
    marks: &mut List<Mark>,
    log: &mut List<Change>,
    todo: &mut List<Pair>,
) -> Result<(), Clash>
    requires well { GraphWell nodes.now classes.old }
    requires settled { Settled (slots_of nodes.now classes.old) }
    requires todo { PairsWell (length nodes.now) todo.old }
    requires size { length marks.old ≡ length classes.old }
    requires new { (i : ℕ) → mark_at marks.old i ≡ New }
    ensures closed { OnOk result (Closed nodes.now classes.old classes.new todo.old) }
    ensures settled { OnOk result (Settled (slots_of nodes.now classes.new)) }
    ensures err { IfErr result (λ clash. Blames nodes.now classes.old todo.old clash) }
    ensures rewinds { rewound classes.new log.new ≡ rewound classes.old log.old }
    ensures size { length marks.new ≡ length marks.old }
    ensures new { (i : ℕ) → mark_at marks.new i ≡ New }
{
    let mut joined = List::new(alloc);
    close(alloc, nodes, classes, log, todo, &mut joined)?;
    settle_from(alloc, nodes, classes.as_slice(), marks, joined.as_slice())
}

// Makes two places one. A refusal leaves what was known.
fn join(
    alloc: Global,
    graph: &mut Graph,
    marks: &mut List<Mark>,
    left: usize,
    right: usize,
) -> Result<(), Clash>
    requires well { GraphWell graph.old.nodes graph.old.classes }
    requires settled { Settled (slots_of graph.old.nodes graph.old.classes) }
    requires size { length marks.old ≡ length graph.old.classes }
    requires new { (i : ℕ) → mark_at marks.old i ≡ New }
    requires left { left < length graph.old.nodes }
    requires right { right < length graph.old.nodes }
    ensures nodes { graph.new.nodes ≡ graph.old.nodes }
    ensures names { graph.new.names.entries ≡ graph.old.names.entries }
    ensures closed { OnOk result (Closed graph.old.nodes graph.old.classes graph.new.classes (record { left = left; right = right } ∷ [])) }
    ensures settled { OnOk result (Settled (slots_of graph.old.nodes graph.new.classes)) }
    ensures err { OnErr result (graph.new.classes ≡ graph.old.classes) }
    ensures blamed { IfErr result (λ clash. Blames graph.old.nodes graph.old.classes (record { left = left; right = right } ∷ []) clash) }
    ensures size { length marks.new ≡ length marks.old }
    ensures new { (i : ℕ) → mark_at marks.new i ≡ New }
{
    let mut todo = List::new(alloc);
    todo.push(Pair { left, right })?;
    let mut log = List::new(alloc);
    match solve_more(
        alloc,
        graph.nodes.as_slice(),
        &mut graph.classes,
        marks,
        &mut log,
        &mut todo,
    ) {
        Ok(()) => Ok(()),
        Err(clash) => {
            rewind(&mut graph.classes, &mut log);
            Err(clash)
        }
    }
}

// Makes two sorts equal.
fn equate_in(
    alloc: Global,
    graph: &mut Graph,
    marks: &mut List<Mark>,
    left: &Sort,
    right: &Sort,
) -> Result<(), Clash>
    requires sound { IsSound (sheet graph.old) }
    requires unmarked { Unmarked marks.old (length graph.old.nodes) }
    ensures sound { IsSound (sheet graph.new) }
    ensures respected { OnOk result ((f : ℕ → Sort) → Respects f (bound (sheet graph.new)) ↔ (Respects f (bound (sheet graph.old)) × MakesEqual f left.now right.now)) }
    ensures refused { OnErr result ((n : ℕ) → bound (sheet graph.new) n ≡ bound (sheet graph.old) n) }
    ensures blamed { IfErr result (IsClash (IsGiven (sheet graph.old) left.now right.now)) }
    ensures unmarked { Unmarked marks.new (length graph.new.nodes) }
{
    if same_sort(left, right) {
        return Ok(());
    }
    let first = enter(alloc, graph, left)?;
    let second = enter(alloc, graph, right)?;
    extend(marks, graph.classes.len())?;
    join(alloc, graph, marks, first, second)?;
    Ok(())
}

// The sort with the bound sorts put for its variables.
#[tactic(auto, using(crate::proofs::SortLaws::puts))]
fn apply_in(alloc: Global, graph: &Graph, sort: &Sort) -> Result<Sort, AllocError>
    requires { SheetWell (sheet graph.now) }
    ensures { IfOk result (λ s. s ≡ put (bound (sheet graph.now)) sort.now) }
{
    match sort {
        Sort::Var(var) => match find_place(&graph.names, *var) {
            Some(place) => {
                let classes = graph.classes.as_slice();
                let found = resolve(alloc, graph.nodes.as_slice(), classes, classes.len(), place)?;
                Ok(found)
            }
            None => Ok(Sort::Var(*var)),
        },
        Sort::Rigid(n) => Ok(Sort::Rigid(*n)),
        Sort::Int => Ok(Sort::Int),
        Sort::Real => Ok(Sort::Real),
        Sort::Bool => Ok(Sort::Bool),
        Sort::Unit => Ok(Sort::Unit),
        Sort::Named { head, args } => {
            let mut sorts = List::new(alloc);
            for arg in args.as_slice() {
                sorts.push(apply_in(alloc, graph, arg)?)?;
            }
            Ok(Sort::Named {
                head: *head,
                args: sorts,
            })
        }
    }
}

/// Sorts for variables: a substitution, which `bound` gives for each variable. Sorts share their parts, so that bindings
/// stay small where the sorts that they stand for are large.
#[derive(Drop)]
pub struct Bindings {
    alloc: Global,
    graph: Graph,
    marks: List<Mark>,
}

impl Model for Bindings {
    ghost use Rattle.ae_types.specs.Inner.Enters.{Sheet, sheet};
    ghost use Rattle.ae_types.specs.Bound.{IsSound};
    ghost use Rattle.ae_types.specs.Inner.Walks.{Unmarked};
    ghost use Rattle.std.specs.Prelude.{length};

    ghost Value = { Sheet };

    ghost view = { λ b. sheet b.graph };

    ghost invariant = { λ b. IsSound (sheet b.graph) × Unmarked b.marks (length b.graph.nodes) };
}

impl Bindings {
    /// Bindings that bind no variable.
    pub fn new(alloc: Global) -> Bindings
        ensures { (n : ℕ) → bound result n ≡ Var n }
    {
        Bindings {
            alloc,
            graph: empty_graph(alloc),
            marks: List::new(alloc),
        }
    }

    /// Makes two sorts equal, beside all that the bindings made equal before. A refused pair leaves what each variable is
    /// bound to; the memory for its sorts stays taken. Sorts that are the same take time linear in them, and no memory.
    /// Any other call takes time, but for a logarithm, linear in them and in the sorts of the places that it joins.
    pub fn equate(&mut self, left: &Sort, right: &Sort) -> Result<(), Clash>
        ensures respected { OnOk result ((f : ℕ → Sort) → Respects f (bound self.new) ↔ (Respects f (bound self.old) × MakesEqual f left.now right.now)) }
        ensures idempotent { IsIdempotent (bound self.new) }
        ensures unchanged { OnErr result ((n : ℕ) → bound self.new n ≡ bound self.old n) }
        ensures refuted { IfErr result (λ clash. Refutes clash ((f : ℕ → Sort) × Respects f (bound self.old) × MakesEqual f left.now right.now)) }
        ensures clash { IfErr result (IsClash (IsGiven self.old left.now right.now)) }
    {
        equate_in(self.alloc, &mut self.graph, &mut self.marks, left, right)
    }

    /// The sort with the bound sorts put for its variables.
    pub fn apply(&self, sort: &Sort) -> Result<Sort, AllocError>
        ensures { IfOk result (λ s. s ≡ put (bound self.now) sort.now) }
    {
        apply_in(self.alloc, &self.graph, sort)
    }
}

/// A most general unifier of all pairs.
pub fn unify(alloc: Global, pairs: &[SortPair]) -> Result<Bindings, Clash>
    ensures unifies { IfOk result (λ b. Unifies (bound b) pairs.now) }
    ensures most_general { IfOk result (λ b. (f : ℕ → Sort) → Unifies f pairs.now → IsMoreGeneral (bound b) f) }
    ensures idempotent { IfOk result (λ b. IsIdempotent (bound b)) }
    ensures refuted { IfErr result (λ clash. Refutes clash ((f : ℕ → Sort) × Unifies f pairs.now)) }
    ensures clash { IfErr result (IsClash (IsPair pairs.now)) }
{
    let mut graph = empty_graph(alloc);
    let mut todo = List::new(alloc);
    enter_pairs(alloc, &mut graph, &mut todo, pairs)?;
    let mut log = List::new(alloc);
    match solve(
        alloc,
        graph.nodes.as_slice(),
        &mut graph.classes,
        &mut log,
        &mut todo,
    ) {
        Ok(()) => Ok(Bindings {
            alloc,
            graph,
            marks: List::new(alloc),
        }),
        Err(clash) => Err(clash),
    }
}
