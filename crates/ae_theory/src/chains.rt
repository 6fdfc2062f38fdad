//! Which names the equations of a place make the same, and by which of them.
ghost use Rattle.std.specs.Prelude.{◌≡◌, ◌≢◌, ◌≤◌, ◌<◌, ◌↔◌, ◌∷◌, ◌++◌, [], if◌then◌else◌, ℕ, cond, nat_eq, length, IsTrue, IfOk, OnOk, OnErr, MatchOption, MatchBool};
ghost use Rattle.std.specs.List.{Contains};
ghost use Rattle.ae_theory.specs.Paths.{list_at};
ghost use Rattle.ae_theory.specs.Classes.{class_of, ClashesBy, Clashes, NoneClashes, IsConflict};
ghost use Rattle.ae_theory.specs.Inner.Trees.{IsCached, IsPushed, IsTree, renamed};
ghost use Rattle.ae_theory.specs.Names.{IsOrdered};
ghost use Rattle.ae_theory.specs.Inner.Hops.{AddsPath};

use crate::nodes::{Edge, Node};
use ae_core::formulas::Lit;
use ae_core::lists::List;
use std::alloc::{AllocError, Global};

/// An equation on the way from one name to another, by its node's number; turned where the way goes from its right side to its left one.
#[derive(Clone, Copy)]
pub struct Hop {
    pub node: usize,
    pub turned: bool,
}

/// What stands for a name after a node, where `earlier` stood for it before.
fn after(node: &Node, earlier: usize) -> usize
    ensures { result ≡ renamed node.now.edge node.now.from node.now.to earlier }
{
    match node.edge {
        Edge::Same { .. } => {
            if earlier == node.from {
                node.to
            } else {
                earlier
            }
        }
        Edge::Apart { .. } => earlier,
        Edge::Other => earlier,
    }
}

/// What stands for a name at a place, in time linear in the nodes of the place.
pub fn class(nodes: &[Node], place: usize, name: usize) -> usize
    requires tree { IsTree nodes.now }
    requires within { place ≤ length nodes.now }
    ensures { result ≡ class_of (list_at nodes.now place) name }
{
    if place == 0 {
        return name;
    }
    let node = &nodes[place - 1];
    after(node, class(nodes, node.parent, name))
}

/// What stands for the right side of an equation at a place, and for the left one; 0 for what is no equation.
fn stood_before(nodes: &[Node], place: usize, edge: Edge) -> (usize, usize)
    requires tree { IsTree nodes.now }
    requires within { place ≤ length nodes.now }
    ensures { IsCached (list_at nodes.now place) edge result.0 result.1 }
{
    match edge {
        Edge::Same { left, right } => (class(nodes, place, right), class(nodes, place, left)),
        Edge::Apart { .. } => (0, 0),
        Edge::Other => (0, 0),
    }
}

/// Puts a node with this literal behind those of a place.
pub fn push_node(
    nodes: &mut List<Node>,
    last: usize,
    lit: Lit,
    tag: usize,
    edge: Edge,
) -> Result<(), AllocError>
    requires tree { IsTree nodes.old }
    requires within { last ≤ length nodes.old }
    ensures ok { OnOk result (IsPushed nodes.old nodes.new last lit tag edge) }
    ensures err { OnErr result (nodes.new ≡ nodes.old) }
    ensures tree { IsTree nodes.new }
{
    let (from, to) = stood_before(nodes.as_slice(), last, edge);
    nodes.push(Node {
        lit,
        tag,
        edge,
        from,
        to,
        parent: last,
    })
}

/// Whether an edge says that two names differ which are the same at a place.
fn clashes(nodes: &[Node], place: usize, edge: Edge) -> bool
    requires tree { IsTree nodes.now }
    requires within { place ≤ length nodes.now }
    ensures { MatchBool result (ClashesBy (list_at nodes.now place) edge) (¬ ClashesBy (list_at nodes.now place) edge) }
{
    match edge {
        Edge::Same { .. } => false,
        Edge::Apart { left, right } => class(nodes, place, left) == class(nodes, place, right),
        Edge::Other => false,
    }
}

/// The number of a node of a place that clashes with the others.
pub fn conflict_at(nodes: &[Node], last: usize) -> Option<usize>
    requires tree { IsTree nodes.now }
    requires within { last ≤ length nodes.now }
    ensures { MatchOption result (NoneClashes (list_at nodes.now last)) (λ k. IsConflict (record { nodes = nodes.now; last = last }) k) }
{
    let mut place = last;
    while 0 < place {
        let number = place - 1;
        if clashes(nodes, last, nodes[number].edge) {
            return Some(number);
        }
        place = nodes[number].parent;
    }
    None
}

/// Whether two names are the same at a place.
pub fn are_same(nodes: &[Node], place: usize, left: usize, right: usize) -> bool
    requires tree { IsTree nodes.now }
    requires within { place ≤ length nodes.now }
    ensures { result ≡ nat_eq (class_of (list_at nodes.now place) left) (class_of (list_at nodes.now place) right) }
{
    class(nodes, place, left) == class(nodes, place, right)
}

/// Adds a number where it passes.
fn push_where(numbers: &mut List<usize>, passes: bool, number: usize) -> Result<(), AllocError>
    ensures { OnOk result (numbers.new ≡ (if passes then numbers.old ++ number ∷ [] else numbers.old)) }
{
    if passes {
        numbers.push(number)?;
    }
    Ok(())
}

/// The names below a number that are the same as this one at a place, rising.
pub fn same_names(
    alloc: Global,
    nodes: &[Node],
    place: usize,
    name: usize,
    count: usize,
) -> Result<List<usize>, AllocError>
    requires tree { IsTree nodes.now }
    requires within { place ≤ length nodes.now }
    ensures all { IfOk result (λ ns. (n : ℕ) → n < count → (Contains ns n ↔ IsTrue (nat_eq (class_of (list_at nodes.now place) name) (class_of (list_at nodes.now place) n)))) }
    ensures rising { IfOk result IsOrdered }
{
    let mut names = List::new(alloc);
    for other in 0..count {
        push_where(&mut names, are_same(nodes, place, name, other), other)?;
    }
    Ok(names)
}

/// Whether two names aren't the same at a place.
fn differ(nodes: &[Node], place: usize, left: usize, right: usize) -> bool
    requires tree { IsTree nodes.now }
    requires within { place ≤ length nodes.now }
    ensures { MatchBool result (class_of (list_at nodes.now place) left ≢ class_of (list_at nodes.now place) right)
        (class_of (list_at nodes.now place) left ≡ class_of (list_at nodes.now place) right) }
{
    class(nodes, place, left) != class(nodes, place, right)
}

/// The end of an equation's way that is meant.
fn end(turned: bool, left: usize, right: usize) -> usize
    ensures { result ≡ cond turned left right }
{
    if turned { left } else { right }
}

/// Adds the equations that lead from one name to another.
pub fn push_path(
    nodes: &[Node],
    place: usize,
    from: usize,
    to: usize,
    hops: &mut List<Hop>,
) -> Result<(), AllocError>
    requires tree { IsTree nodes.now }
    requires within { place ≤ length nodes.now }
    requires alike { class_of (list_at nodes.now place) from ≡ class_of (list_at nodes.now place) to }
    ensures { OnOk result (AddsPath nodes.now (list_at nodes.now place) from to hops.old hops.new) }
{
    if place == 0 {
        return Ok(());
    }
    let number = place - 1;
    let parent = nodes[number].parent;
    if class(nodes, parent, from) == class(nodes, parent, to) {
        return push_path(nodes, parent, from, to, hops);
    }
    match nodes[number].edge {
        Edge::Same { left, right } => {
            let turned = differ(nodes, parent, from, left);
            push_path(nodes, parent, from, end(turned, right, left), hops)?;
            hops.push(Hop {
                node: number,
                turned,
            })?;
            push_path(nodes, parent, end(turned, left, right), to, hops)
        }
        Edge::Apart { .. } => Ok(()),
        Edge::Other => Ok(()),
    }
}
