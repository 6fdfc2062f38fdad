//! What an operator between two expressions makes of them.

ghost use Rattle.std.specs.Prelude.{◌≡◌};
ghost use Rattle.ae_elab.specs.Shapes as spec;
ghost use Rattle.ae_elab.specs.Terms.{numbers_of};

use crate::nodes::{Connective, Relation};
use crate::numbers::Numbers;
use ae_core::terms::Op;
use ae_syntax::exprs::BinaryOp;

/// What an operator between two expressions makes of them.
#[derive(Clone, Copy)]
pub enum Shape {
    /// A term: an operation of arithmetic.
    Operation(Op),
    /// A formula that relates two terms of one sort.
    Equation(Relation),
    /// A formula that relates two numbers.
    Inequality(Relation),
    /// A formula that joins two formulas.
    Joined(Connective),
}

/// What an operator makes.
pub fn shape_of(op: BinaryOp) -> Shape
    ensures { result ≡ spec.shape_of op }
{
    match op {
        BinaryOp::Implies => Shape::Joined(Connective::Implication),
        BinaryOp::Iff => Shape::Joined(Connective::Equivalence),
        BinaryOp::Xor => Shape::Joined(Connective::Exclusion),
        BinaryOp::Or => Shape::Joined(Connective::Disjunction),
        BinaryOp::And => Shape::Joined(Connective::Conjunction),
        BinaryOp::Equal => Shape::Equation(Relation::Equal),
        BinaryOp::NotEqual => Shape::Equation(Relation::Unequal),
        BinaryOp::Less => Shape::Inequality(Relation::Less),
        BinaryOp::AtMost => Shape::Inequality(Relation::AtMost),
        BinaryOp::Greater => Shape::Inequality(Relation::Greater),
        BinaryOp::AtLeast => Shape::Inequality(Relation::AtLeast),
        BinaryOp::Add => Shape::Operation(Op::Add),
        BinaryOp::Sub => Shape::Operation(Op::Sub),
        BinaryOp::Mul => Shape::Operation(Op::Mul),
        BinaryOp::Div => Shape::Operation(Op::Div),
        BinaryOp::Rem => Shape::Operation(Op::Mod),
    }
}

/// The sorts that an operation is on.
pub fn numbers_of(op: Op) -> Numbers
    ensures { result ≡ numbers_of op }
{
    match op {
        Op::Mod => Numbers::IntAlone,
        Op::Add => Numbers::IntOrReal,
        Op::Sub => Numbers::IntOrReal,
        Op::Neg => Numbers::IntOrReal,
        Op::Mul => Numbers::IntOrReal,
        Op::Div => Numbers::IntOrReal,
    }
}
