//! Which heads are computed arithmetic.
ghost use Rattle.std.specs.Prelude.{◌≡◌};
ghost use Rattle.ae_computing.specs.Inner.Operations as spec;

use ae_core::terms::{Head, Op};

/// What an application does with the numbers of its arguments.
#[derive(Clone, Copy)]
pub enum Operation {
    Sum,
    Difference,
    Negation,
    /// Computed where a factor is a number.
    Product,
    /// Computed where the second argument is a numeral other than 0.
    Quotient,
    /// Nothing that is computed.
    Opaque,
}

/// The operation of a head.
pub fn operation_of(head: Head) -> Operation
    ensures { result ≡ spec.operation_of head }
{
    match head {
        Head::Int(Op::Add) => Operation::Sum,
        Head::Real(Op::Add) => Operation::Sum,
        Head::Int(Op::Sub) => Operation::Difference,
        Head::Real(Op::Sub) => Operation::Difference,
        Head::Int(Op::Neg) => Operation::Negation,
        Head::Real(Op::Neg) => Operation::Negation,
        Head::Int(Op::Mul) => Operation::Product,
        Head::Real(Op::Mul) => Operation::Product,
        Head::Real(Op::Div) => Operation::Quotient,
        _ => Operation::Opaque,
    }
}
