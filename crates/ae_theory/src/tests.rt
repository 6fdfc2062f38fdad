//! Names that three literals make the same: 0 and 1, 1 and 2; and that 0 and 2 differ.
ghost use Rattle.std.specs.Prelude.{◌≤◌, length, IfOk};
ghost use Rattle.ae_theory.specs.Inner.Trees.{IsTree};

use crate::chains::{are_same, class, conflict_at, push_node, same_names};
use crate::nodes::{Edge, Node};
use ae_core::formulas::{Formula, Lit};
use ae_core::lists::List;
use std::alloc::{AllocError, Global};

/// Puts a node behind the last one.
fn push_last(nodes: &mut List<Node>, tag: usize, edge: Edge) -> Result<(), AllocError>
    requires tree { IsTree nodes.old }
    ensures tree { IsTree nodes.new }
{
    let lit = Lit {
        positive: true,
        formula: Formula::True,
    };
    let last = nodes.len();
    push_node(nodes, last, lit, tag, edge)
}

fn three_nodes(alloc: Global) -> Result<List<Node>, AllocError>
    ensures { IfOk result IsTree }
{
    let mut nodes = List::new(alloc);
    push_last(&mut nodes, 7, Edge::Same { left: 0, right: 1 })?;
    push_last(&mut nodes, 8, Edge::Same { left: 1, right: 2 })?;
    push_last(&mut nodes, 9, Edge::Apart { left: 0, right: 2 })?;
    Ok(nodes)
}

#[test]
fn names_that_are_the_same(rt: HostRuntime) -> Result<(), AllocError> {
    let alloc = rt.alloc();
    let nodes = three_nodes(alloc)?;
    let all = nodes.len();
    assert!(rt; all == 3);
    assert!(rt; class(nodes.as_slice(), all, 2) == 0);
    assert!(rt; are_same(nodes.as_slice(), all, 0, 2));
    assert!(rt; !are_same(nodes.as_slice(), all, 0, 3));
    let names = same_names(alloc, nodes.as_slice(), all, 1, 4)?;
    assert!(rt; names.len() == 3);
    Ok(())
}

#[test]
fn names_that_are_to_differ(rt: HostRuntime) -> Result<(), AllocError> {
    let alloc = rt.alloc();
    let nodes = three_nodes(alloc)?;
    let all = nodes.len();
    assert!(rt; conflict_at(nodes.as_slice(), all) == Some(2));
    // The state after the first literal.
    assert!(rt; conflict_at(nodes.as_slice(), all / 2).is_none());
    Ok(())
}
