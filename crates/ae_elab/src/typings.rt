//! What is given where an expression is typed, and what its typing goes on from.

ghost use Rattle.std.specs.Prelude.{◌≡◌, [], IfOk, OnOk};

use crate::environment::Environment;
use crate::known::Known;
use crate::passing::Passing;
use ae_core::lists::List;
use ae_core::terms::Sort;
use ae_syntax::exprs::Quantifier;
use ae_syntax::spans::Span;
use ae_types::Bindings;
use std::alloc::Global;

/// What is given where an expression is typed: the text and the declarations so far.
#[derive(Drop)]
pub struct Context<'a> {
    pub alloc: Global,
    pub text: &'a [u8],
    pub known: Known<'a>,
}

/// What typing goes on from: what is passed on, a most general typing of all that was stated, the bound names and the
/// typed trees.
#[derive(Drop)]
pub struct Typing<'a> {
    pub passing: Passing<'a>,
    pub bindings: Bindings,
    pub environment: Environment<'a>,
}

/// A term: its place among the nodes, and its sort.
#[derive(Drop)]
pub struct TypedTerm {
    pub tree: usize,
    pub sort: Sort,
}

/// A variable of a block: where its name stands, its number and its sort.
#[derive(Drop)]
pub struct Bound {
    pub name: Span,
    pub number: usize,
    pub sort: Sort,
}

/// The block round a formula that it would be merged with: its quantifier and its variables.
#[derive(Drop)]
pub struct Around {
    pub quantifier: Quantifier,
    pub variables: List<usize>,
}
