//! Entering sorts into a graph.

ghost use Rattle.std.specs.Prelude.{◌≡◌, ℕ, ◌+◌, ◌<◌, ◌≤◌, [], length, IfOk, OnOk, OnErr};
ghost use Rattle.ae_types.specs.Inner.Enters.{Adds, Grows, SheetWell, StandsFor, PairsStand, place_of, sheet};
ghost use Rattle.ae_types.specs.Inner.Graphs.{constant_sort};
ghost use Rattle.ae_core.specs.declared.terms.Sort.{Var};

use crate::graph::{Class, Constant, Graph, Node, find_place};
use crate::joins::Pair;
use crate::pairs::SortPair;
use ae_core::lists::List;
use ae_core::terms::Sort;
use std::alloc::{AllocError, Global};

// Adds a place for a node.
fn add(graph: &mut Graph, node: Node) -> Result<usize, AllocError>
    ensures ok { IfOk result (λ p. Adds (sheet graph.old) (sheet graph.new) node p) }
    ensures err { OnErr result (sheet graph.new ≡ sheet graph.old) }
{
    let place = graph.classes.len();
    graph.classes.push(Class::Known(place))?;
    match graph.nodes.push(node) {
        Ok(()) => Ok(place),
        Err(error) => {
            graph.classes.pop();
            Err(error)
        }
    }
}

// The place of a variable, which is a new one where there is none.
fn enter_variable(graph: &mut Graph, var: usize) -> Result<usize, AllocError>
    requires { SheetWell (sheet graph.old) }
    ensures grows { Grows (sheet graph.old) (sheet graph.new) }
    ensures ok { IfOk result (λ p. StandsFor graph.new.nodes (Var var) p) }
{
    match find_place(&graph.names, var) {
        Some(place) => Ok(place),
        None => add_variable(graph, var),
    }
}

// Adds a place for a variable that has none.
fn add_variable(graph: &mut Graph, var: usize) -> Result<usize, AllocError>
    requires well { SheetWell (sheet graph.old) }
    requires unknown { place_of graph.old.names.entries var ≡ None }
    ensures grows { Grows (sheet graph.old) (sheet graph.new) }
    ensures ok { IfOk result (λ p. StandsFor graph.new.nodes (Var var) p) }
{
    let place = add(graph, Node::Variable(var))?;
    match graph.names.insert(var, place) {
        Ok(_) => Ok(place),
        Err(error) => {
            graph.nodes.pop();
            graph.classes.pop();
            Err(error.into())
        }
    }
}

// The place of a constant, which is a new one.
fn enter_constant(graph: &mut Graph, constant: Constant) -> Result<usize, AllocError>
    requires { SheetWell (sheet graph.old) }
    ensures grows { Grows (sheet graph.old) (sheet graph.new) }
    ensures ok { IfOk result (λ p. StandsFor graph.new.nodes (constant_sort constant) p) }
{
    let place = add(graph, Node::Constant(constant))?;
    Ok(place)
}

/// The place of a sort, with new places for its parts.
pub fn enter(alloc: Global, graph: &mut Graph, sort: &Sort) -> Result<usize, AllocError>
    requires { SheetWell (sheet graph.old) }
    ensures grows { Grows (sheet graph.old) (sheet graph.new) }
    ensures ok { IfOk result (λ p. StandsFor graph.new.nodes sort.now p) }
{
    match sort {
        Sort::Var(var) => enter_variable(graph, *var),
        Sort::Rigid(n) => enter_constant(graph, Constant::Rigid(*n)),
        Sort::Int => enter_constant(graph, Constant::Int),
        Sort::Real => enter_constant(graph, Constant::Real),
        Sort::Bool => enter_constant(graph, Constant::Bool),
        Sort::Unit => enter_constant(graph, Constant::Unit),
        Sort::Named { head, args } => {
            let mut places = List::new(alloc);
            for arg in args.as_slice() {
                let part = enter(alloc, graph, arg)?;
                places.push(part)?;
            }
            let head = *head;
            let place = add(graph, Node::Built { head, args: places })?;
            Ok(place)
        }
    }
}

/// Enters the sorts of all pairs.
pub fn enter_pairs(
    alloc: Global,
    graph: &mut Graph,
    todo: &mut List<Pair>,
    pairs: &[SortPair],
) -> Result<(), AllocError>
    requires well { SheetWell (sheet graph.old) }
    requires none { todo.old ≡ [] }
    ensures grows { Grows (sheet graph.old) (sheet graph.new) }
    ensures ok { OnOk result (PairsStand graph.new.nodes pairs.now todo.new) }
{
    for pair in pairs {
        let left = enter(alloc, graph, &pair.left)?;
        let right = enter(alloc, graph, &pair.right)?;
        todo.push(Pair { left, right })?;
    }
    Ok(())
}
