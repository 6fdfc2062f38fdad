//! Typed trees in one list: a tree is a place there, so that what a `let` names stands once.

use ae_core::lists::List;
use ae_core::terms::{Head, Op, Sort};
use ae_syntax::exprs::Quantifier;
use ae_syntax::spans::Span;

/// The relations between two terms, as they are written.
#[derive(Clone, Copy)]
pub enum Relation {
    Equal,
    Unequal,
    Less,
    AtMost,
    Greater,
    AtLeast,
}

/// The connectives of two formulas.
#[derive(Clone, Copy)]
pub enum Connective {
    Conjunction,
    Disjunction,
    Exclusion,
    Equivalence,
    Implication,
}

/// A trigger: the places of its terms, and where in the text its first term stands.
#[derive(Drop)]
pub struct Pattern {
    pub place: Span,
    pub terms: List<usize>,
}

/// A term or a formula whose parts stand at places before it.
#[derive(Drop)]
pub enum Node {
    /// A block's variable, by its number.
    Variable(usize),
    Numeral {
        top: i128,
        bottom: i128,
        real: bool,
    },
    /// A symbol, a field, `true`, `false` or `void`, with the sorts put for its type variables.
    Apply {
        head: Head,
        sorts: List<Sort>,
        args: List<usize>,
    },
    Operation {
        op: Op,
        sort: Sort,
        args: List<usize>,
    },
    /// A record of the type of number `of`, which has `count` fields.
    Build {
        of: usize,
        sorts: List<Sort>,
        count: usize,
        places: List<usize>,
        values: List<usize>,
    },
    /// A record with some fields changed.
    Update {
        of: usize,
        sorts: List<Sort>,
        count: usize,
        base: usize,
        places: List<usize>,
        values: List<usize>,
    },
    /// `if` between terms.
    Choice {
        condition: usize,
        positive: usize,
        negative: usize,
    },
    Truth,
    Falsity,
    Relation {
        relation: Relation,
        left: usize,
        right: usize,
    },
    /// A predicate's application.
    Predicate {
        symbol: usize,
        sorts: List<Sort>,
        args: List<usize>,
    },
    Distinct(List<usize>),
    /// A term of sort `bool` in a formula's place, or what the term is as a formula.
    Holds(usize),
    Negation(usize),
    Joined {
        connective: Connective,
        left: usize,
        right: usize,
    },
    /// `if` between formulas.
    Conditional {
        condition: usize,
        positive: usize,
        negative: usize,
    },
    Quantified {
        quantifier: Quantifier,
        variables: List<usize>,
        sorts: List<Sort>,
        triggers: List<Pattern>,
        body: usize,
    },
}
