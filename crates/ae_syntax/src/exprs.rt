//! Expressions: formulas and terms as they are written.

use crate::spans::{Boxed, List, Span};
use crate::types::WrittenType;

/// An operator between two expressions.
#[derive(Clone, Copy, Debug, PartialEq, Eq)]
pub enum BinaryOp {
    /// `->`
    Implies,
    /// `<->`
    Iff,
    Xor,
    Or,
    And,
    /// `=`
    Equal,
    /// `<>`
    NotEqual,
    /// `<`
    Less,
    /// `<=`
    AtMost,
    /// `>`
    Greater,
    /// `>=`
    AtLeast,
    /// `+`
    Add,
    /// `-`
    Sub,
    /// `*`
    Mul,
    /// `/`
    Div,
    /// `%`
    Rem,
}

/// The word before a block of variables.
#[derive(Clone, Copy, Debug, PartialEq, Eq)]
pub enum Quantifier {
    Forall,
    Exists,
}

/// A numeral's value.
#[derive(Clone, Copy, Debug, PartialEq, Eq)]
pub enum Number {
    Whole(i128),
    /// `top / bottom` in lowest terms.
    Decimal { top: i128, bottom: i128 },
}

/// An expression, with its place.
#[derive(Drop)]
#[cycle(expr)]
pub struct Expr {
    pub span: Span,
    pub kind: Boxed<ExprKind>,
}

/// What an expression is. What would make the node large, and is rare, stands in a box of its own, so that
/// a node takes 56 bytes.
#[derive(Drop)]
#[cycle(expr)]
pub enum ExprKind {
    /// Two expressions and the operator between them.
    Binary {
        op: BinaryOp,
        left: Expr,
        right: Expr,
    },
    /// `not`
    Not(Expr),
    /// `-` before an expression
    Negative(Expr),
    /// `forall` or `exists` with groups of variables, triggers and a body.
    Quantified {
        quantifier: Quantifier,
        groups: Boxed<List<Group>>,
        triggers: Boxed<List<Trigger>>,
        body: Expr,
    },
    /// `let name = value in body`
    Let {
        name: Span,
        value: Expr,
        body: Expr,
    },
    /// `if condition then positive else negative`
    If {
        condition: Expr,
        positive: Expr,
        negative: Expr,
    },
    /// `base.field`
    Field {
        base: Expr,
        field: Span,
    },
    /// A name with its arguments; none where no brackets follow it.
    Apply {
        name: Span,
        args: List<Expr>,
    },
    Numeral(Boxed<Number>),
    True,
    False,
    Void,
    /// An expression in round brackets.
    Bracketed(Expr),
    /// `(body : sort)`
    Ascribed {
        body: Expr,
        sort: Boxed<WrittenType>,
    },
    /// `distinct(..)`
    Distinct(List<Expr>),
    /// `{ name = value; .. }`
    Record(List<Setting>),
    /// `{ base with name = value; .. }`
    Update {
        base: Expr,
        settings: List<Setting>,
    },
}

/// Variables of one sort: `x, y : t`.
#[derive(Drop)]
pub struct Group {
    pub span: Span,
    pub names: List<Span>,
    pub sort: WrittenType,
}

/// Terms that must match together, parted by commas.
#[derive(Drop)]
#[cycle(expr)]
pub struct Trigger {
    pub span: Span,
    pub terms: List<Expr>,
}

/// A field's name and its value: `x = e`.
#[derive(Drop)]
#[cycle(expr)]
pub struct Setting {
    pub span: Span,
    pub name: Span,
    pub value: Expr,
}
