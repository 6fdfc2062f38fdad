//! Names that come.
ghost use Rattle.std.specs.Prelude.{◌≡◌, ◌≤◌, length, IfOk, OnOk};
ghost use Rattle.ae_store.specs.Growing.{IsFront};
ghost use Rattle.ae_store.specs.Shapes.{shape_of};
ghost use Rattle.ae_store.specs.Terms.{terms, Keeps};
ghost use Rattle.ae_theory.specs.Names.{terms_in};
ghost use Rattle.ae_state.specs.Names.{all_terms};
ghost use Rattle.ae_state.specs.Fitting.{FitsStore};

use crate::holding::Holding;
use ae_core::copies::{copy_sort, copy_sorts};
use ae_core::lists::List;
use ae_store::args::copy_args;
use ae_store::nodes::{Node, Shape};
use ae_store::store::Store;
use std::alloc::{AllocError, Global};

/// What tells a node from the others.
fn shape_from(alloc: Global, node: &Node) -> Result<Shape, AllocError>
    ensures { IfOk result (λ shape. shape ≡ shape_of node.now) }
{
    Ok(Shape {
        head: node.head,
        sorts: copy_sorts(alloc, node.sorts.as_slice())?,
        args: copy_args(alloc, &node.args)?,
        sort: copy_sort(alloc, &node.sort)?,
    })
}

/// Adds the shapes of the names of a store that aren't there yet. What came stays where memory is refused.
fn push_shapes(alloc: Global, shapes: &mut List<Shape>, store: &Store) -> Result<(), AllocError>
    requires keeps { Keeps (terms shapes.old) (terms_in store.now) }
    ensures keeps { Keeps (terms shapes.new) (terms_in store.now) }
    ensures front { IsFront shapes.old shapes.new }
    ensures all { OnOk result (length store.now.nodes ≤ length shapes.new) }
{
    let start = shapes.len();
    let end = store.len();
    for name in start..end {
        let shape = shape_from(alloc, store.node(name))?;
        shapes.push(shape)?;
    }
    Ok(())
}

impl Holding {
    /// Takes note of the names of a store that are new. They get no values yet. What came stays where memory is refused.
    pub fn learn(&mut self, alloc: Global, store: &Store) -> Result<(), AllocError>
        requires fits { FitsStore self.old store.now }
        ensures all { OnOk result (all_terms self.new ≡ terms_in store.now) }
        ensures fits { FitsStore self.new store.now }
        ensures front { IsFront self.old.shapes self.new.shapes }
        ensures others { self.new ≡ record self.old { shapes = self.new.shapes } }
    {
        push_shapes(alloc, &mut self.shapes, store)
    }
}
