//! Formulas.
use crate::lists::{Boxed, List};
use crate::terms::{Sort, Term};

/// A block of variables with what it binds them in.
#[derive(Drop)]
#[cycle(formula)]
pub struct Quant {
    /// The sorts of the variables, in the order in which they are written.
    pub sorts: List<Sort>,
    /// The triggers: each one is a list of patterns that must match together.
    pub triggers: List<List<Term>>,
    /// The formula under the block.
    pub body: Boxed<Formula>,
}

/// A formula.
#[derive(Drop)]
#[cycle(formula)]
pub enum Formula {
    True,
    False,
    /// Two terms of one sort are equal.
    Eq {
        left: Term,
        right: Term,
    },
    /// The left number is below the right one.
    Lt {
        left: Term,
        right: Term,
    },
    /// The left number is at most the right one.
    Le {
        left: Term,
        right: Term,
    },
    /// A declared predicate, by its number in the signature, holds of its arguments.
    Pred {
        symbol: usize,
        sorts: List<Sort>,
        args: List<Term>,
    },
    Not(Boxed<Formula>),
    And(Boxed<Formula>, Boxed<Formula>),
    Or(Boxed<Formula>, Boxed<Formula>),
    /// Exactly one of the two holds.
    Xor(Boxed<Formula>, Boxed<Formula>),
    /// Both hold or neither does.
    Iff(Boxed<Formula>, Boxed<Formula>),
    /// The body holds for all values of the variables.
    All(Quant),
    /// The body holds for some values of the variables.
    Ex(Quant),
}

/// A literal: the formula where `positive` is true, its negation otherwise.
#[derive(Drop)]
pub struct Lit {
    pub positive: bool,
    pub formula: Formula,
}

/// The literals of which one holds; the calculus reads it as a set.
pub type Clause = List<Lit>;
