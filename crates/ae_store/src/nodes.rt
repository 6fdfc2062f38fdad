//! Nodes: terms whose arguments are names.
ghost use Rattle.std.specs.Prelude.{◌≡◌, ◌↔◌, IsTrue, IfOk};
ghost use Rattle.ae_store.specs.Shapes.{shape_of};
ghost use Rattle.ae_store.specs.Keys as spec;

use crate::args::{Args, copy_args, same_args};
use ae_core::copies::{copy_sort, copy_sorts};
use ae_core::equality::{same_head, same_sort, same_sorts};
use ae_core::lists::List;
use ae_core::terms::{Head, Op, Sort};
use std::alloc::{AllocError, Global};
use std::hash::{Hash, Hasher};

/// What a node applies, or what it is.
#[derive(Clone, Copy, PartialEq, Eq)]
pub enum NodeHead {
    /// A head.
    Of(Head),
    /// The number `top / bottom`.
    Num { top: i128, bottom: i128 },
    /// The fresh constant of this number.
    Fresh(usize),
}

/// What tells a node from the others.
#[derive(Drop)]
pub struct Shape {
    pub head: NodeHead,
    pub sorts: List<Sort>,
    pub args: Args,
    pub sort: Sort,
}

/// A term whose arguments are names, with its sort and the generation in which it came up.
#[derive(Drop)]
pub struct Node {
    pub head: NodeHead,
    pub sorts: List<Sort>,
    pub args: Args,
    pub sort: Sort,
    pub generation: u32,
}

/// Whether two shapes are the same.
pub fn same_shape(left: &Shape, right: &Shape) -> bool
    ensures { IsTrue result ↔ (left.now ≡ right.now) }
{
    left.head == right.head
        && same_args(left.args.as_slice(), right.args.as_slice())
        && same_sorts(left.sorts.as_slice(), right.sorts.as_slice())
        && same_sort(&left.sort, &right.sort)
}

/// The node of a shape.
pub fn node_of(alloc: Global, shape: &Shape, generation: u32) -> Result<Node, AllocError>
    ensures shape { IfOk result (λ node. shape_of node ≡ shape.now) }
    ensures generation { IfOk result (λ node. node.generation ≡ generation) }
{
    Ok(Node {
        head: shape.head,
        sorts: copy_sorts(alloc, shape.sorts.as_slice())?,
        args: copy_args(alloc, &shape.args)?,
        sort: copy_sort(alloc, &shape.sort)?,
        generation,
    })
}

impl PartialEq for Shape {
    ghost use Rattle.ae_store.specs.Keys.{is_same, is_same_equiv};
    ghost use Rattle.std.specs.Cmp.{partial_equiv_from_equiv};

    ghost eq = { is_same };

    ghost laws = { partial_equiv_from_equiv is_same_equiv };

    fn eq(&self, other: &Shape) -> bool {
        same_shape(self, other)
    }
}

impl Eq for Shape {
    ghost use Rattle.ae_store.specs.Keys.{is_same_equiv};

    ghost laws = { is_same_equiv };
}

fn op_code(op: Op) -> usize
    ensures { result ≡ spec.op_code op }
{
    match op {
        Op::Add => 0,
        Op::Sub => 1,
        Op::Neg => 2,
        Op::Mul => 3,
        Op::Div => 4,
        Op::Mod => 5,
    }
}

impl Hash for Shape {
    ghost use Rattle.ae_store.specs.Keys.{written, written_alike};

    ghost hash_input = { written };

    ghost respects_eq = { written_alike };

    fn hash<H: Hasher>(&self, state: &mut H) {
        match self.head {
            NodeHead::Of(Head::Symbol(n)) => {
                state.write_usize(0);
                state.write_usize(n);
            }
            NodeHead::Of(Head::Build(n)) => {
                state.write_usize(1);
                state.write_usize(n);
            }
            NodeHead::Of(Head::Field { of, place }) => {
                state.write_usize(of);
                state.write_usize(place);
            }
            NodeHead::Of(Head::Int(op)) => {
                state.write_usize(2);
                state.write_usize(op_code(op));
            }
            NodeHead::Of(Head::Real(op)) => {
                state.write_usize(3);
                state.write_usize(op_code(op));
            }
            NodeHead::Of(Head::True) => state.write_usize(4),
            NodeHead::Of(Head::False) => state.write_usize(5),
            NodeHead::Of(Head::Void) => state.write_usize(6),
            NodeHead::Num { top, bottom } => {
                state.write_i128(top);
                state.write_i128(bottom);
            }
            NodeHead::Fresh(n) => {
                state.write_usize(7);
                state.write_usize(n);
            }
        }
        self.args.as_slice().hash(state);
    }
}
