//! Signatures and problems.
use crate::formulas::Formula;
use crate::lists::List;
use crate::terms::{Head, Sort};
use crate::words::Word;

/// A field of a record type.
#[derive(Drop)]
pub struct FieldEntry {
    pub name: Word,
    pub sort: Sort,
}

/// What a declared type is.
#[derive(Drop)]
pub enum Kind {
    /// A type of which nothing is known.
    Abstract,
    /// An enumeration: the numbers of its constructors, in their order.
    Choices(List<usize>),
    /// A record type: its fields, in their order.
    Fields(List<FieldEntry>),
}

/// A declared type.
#[derive(Drop)]
pub struct TypeEntry {
    pub name: Word,
    /// The number of its parameters.
    pub arity: usize,
    pub kind: Kind,
}

/// What is known of a declared symbol beside its sorts.
#[derive(Clone, Copy)]
pub enum Nature {
    /// Nothing.
    Free,
    /// It is associative and commutative.
    Ac,
    /// It is the constructor at `place`, from 0, of the enumeration `of`.
    Choice { of: usize, place: usize },
}

/// A declared constant, function or predicate.
#[derive(Drop)]
pub struct SymbolEntry {
    pub name: Word,
    /// The number of its type variables.
    pub vars: usize,
    /// The sorts of its arguments.
    pub args: List<Sort>,
    /// The sort of its value; `None` for a predicate.
    pub result: Option<Sort>,
    pub nature: Nature,
}

/// The declared types and symbols. A type's or a symbol's number is its place here, from 0.
#[derive(Drop)]
pub struct Signature {
    pub types: List<TypeEntry>,
    pub symbols: List<SymbolEntry>,
}

/// An axiom or a goal.
#[derive(Drop)]
pub enum Item {
    /// A formula that holds for all sorts put for its `vars` type variables.
    Axiom {
        name: Word,
        vars: usize,
        body: Formula,
    },
    /// A formula to prove from the axioms before it, its `rigid` type variables being unknown sorts.
    Goal {
        name: Word,
        rigid: usize,
        body: Formula,
    },
}

/// What a text says: its declarations, and its axioms and goals in their order.
#[derive(Drop)]
pub struct Problem {
    pub signature: Signature,
    pub items: List<Item>,
}

/// An AC symbol: a declared one with its sorts, or the product of a numeric sort.
#[derive(Drop)]
pub struct AcSymbol {
    pub head: Head,
    pub sorts: List<Sort>,
}
