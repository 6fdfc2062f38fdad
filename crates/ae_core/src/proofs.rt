//! Proofs.
use crate::formulas::{Clause, Formula, Lit};
use crate::lists::List;
use crate::terms::{Sort, Term};

/// A line times a factor, in a sum of lines.
#[derive(Clone, Copy)]
pub struct Scaled {
    pub factor: i128,
    pub line: usize,
}

/// What a derived line says of its two terms.
#[derive(Clone, Copy, PartialEq, Eq)]
pub enum Relation {
    Equal,
    AtMost,
    Below,
}

/// A derived line of a block: two terms, and the rule by which they are equal, or the left is at most or below
/// the right. `line`, `first`, `second` and `lines` are numbers of earlier lines of the block, `hyp` that of one
/// of its hypotheses, all from 0.
#[derive(Drop)]
pub enum EqLine {
    /// The hypothesis is this equation.
    EqHyp {
        left: Term,
        right: Term,
        hyp: usize,
    },
    /// The two terms are the same.
    EqRefl {
        left: Term,
        right: Term,
    },
    /// The line states the equation with its sides changed over.
    EqSym {
        left: Term,
        right: Term,
        line: usize,
    },
    /// The lines state that the left term is equal to a third one, and that one to the right term.
    EqTrans {
        left: Term,
        right: Term,
        first: usize,
        second: usize,
    },
    /// Two applications of one head whose arguments the lines equate, one by one.
    EqCong {
        left: Term,
        right: Term,
        lines: List<usize>,
    },
    /// Two applications of one associative and commutative symbol whose flattened arguments are the same.
    EqAc {
        left: Term,
        right: Term,
    },
    /// `times`, which isn't 0, times the difference of the terms is the sum of the scaled lines' differences.
    EqLin {
        left: Term,
        right: Term,
        times: i128,
        parts: List<Scaled>,
    },
    /// The left term is a field of a written record, and the right one what stands in that field.
    EqField {
        left: Term,
        right: Term,
    },
    /// Two records whose fields the lines equate, one by one.
    EqFields {
        left: Term,
        right: Term,
        lines: List<usize>,
    },
    /// The hypothesis says that the left term is at most the right one.
    LeHyp {
        left: Term,
        right: Term,
        hyp: usize,
    },
    /// The hypothesis says that the left term is below the right one.
    LtHyp {
        left: Term,
        right: Term,
        hyp: usize,
    },
    /// `times`, above 0, times the difference of the terms is the sum of the scaled lines' differences.
    LeSum {
        left: Term,
        right: Term,
        times: i128,
        parts: List<Scaled>,
    },
    /// As `LeSum`, where one of the lines is strict.
    LtSum {
        left: Term,
        right: Term,
        times: i128,
        parts: List<Scaled>,
    },
    /// The line's inequality of integers, divided by the common divisor of its factors and rounded.
    LeRound {
        left: Term,
        right: Term,
        line: usize,
    },
}

/// How a block ends: what of its lines and hypotheses can't hold together.
#[derive(Drop)]
pub enum Ending {
    /// The line states an equation that the hypothesis denies.
    Neq {
        line: usize,
        hyp: usize,
    },
    /// The line equates two terms whose difference is a number other than 0.
    Const {
        line: usize,
    },
    /// The line equates two different constructors.
    Clash {
        line: usize,
    },
    /// Hypothesis `yes` says a predicate of some arguments, `no` denies it of arguments equal by the lines.
    Pred {
        yes: usize,
        no: usize,
        lines: List<usize>,
    },
    /// The terms of the line's inequality differ by a number, and the inequality is false.
    Zero {
        line: usize,
    },
    /// The common divisor of the factors in the line's equation of integers doesn't divide its constant.
    Gcd {
        line: usize,
    },
}

/// Hypotheses, and the lines derived from them.
#[derive(Drop)]
pub struct Deriv {
    pub hyps: List<Lit>,
    pub lines: List<EqLine>,
}

/// A derivation that ends: its hypotheses can't all hold.
#[derive(Drop)]
pub struct Block {
    pub deriv: Deriv,
    pub ending: Ending,
}

/// A line of a proof. Each states a clause.
#[derive(Drop)]
pub enum ClauseLine {
    /// An axiom before the goal, by its place among the items, with sorts put for its type variables.
    Hyp { axiom: usize, sorts: List<Sort> },
    /// The goal's formula is false.
    Goal,
    /// A defining clause of the formula, by its number.
    Def { row: usize, formula: Formula },
    /// The body of a block of variables with terms put, where the block holds for all values.
    Inst { formula: Formula, terms: List<Term> },
    /// The body of a block of variables with fresh constants put, numbered from `first`.
    Fresh { formula: Formula, first: usize },
    /// The term is one of the constructors of its enumeration.
    Exh { term: Term },
    /// The left number is equal to the right one, below it, or above it.
    Tri { left: Term, right: Term },
    /// The opposite of one of the block's hypotheses holds.
    Block(Block),
    /// The clause follows by unit propagation through the hinted lines, in their order.
    Rup { clause: Clause, hints: List<usize> },
}

/// A proof. It derives a goal where each line is allowed and the last states the empty clause.
#[derive(Drop)]
pub struct Proof {
    pub lines: List<ClauseLine>,
}
