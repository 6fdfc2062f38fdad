//! Which applications are computed arithmetic.

ghost use Rattle.std.specs.Prelude.{◌≡◌, ◌<◌, ℕ, map};
ghost use Rattle.std.specs.List.{AllByRecursion};
ghost use Rattle.ae_core.specs.declared.terms.Term.{Term};
ghost use Rattle.ae_rules.specs.Linear.{Linear, rule_of};
ghost use Rattle.ae_constants.specs.Rules.{standing_for, IsBelow};

use ae_core::terms::{Head, Op};
use ae_num::forms::Name;

/// How the form of an application is computed from those of its arguments.
#[derive(Clone, Copy)]
pub enum Computed {
    /// The application is a name of its own.
    Opaque,
    Sum(Name, Name),
    Difference(Name, Name),
    Negation(Name),
    /// Linear where a factor is a number.
    Product(Name, Name),
    /// Linear where the second is a numeral other than 0.
    Quotient(Name, Name),
}

/// The rule of an application, whatever its arguments stand for. Its names are among the arguments.
pub fn computed_by(head: Head, args: &[Name]) -> Computed
    ensures rule { (f : ℕ → Term × Linear) → rule_of head (map f args.now) ≡ standing_for f result }
    ensures below { (n : ℕ) → AllByRecursion (λ a. a < n) args.now → IsBelow n result }
{
    match args {
        [of] => match head {
            Head::Int(Op::Neg) => Computed::Negation(*of),
            Head::Real(Op::Neg) => Computed::Negation(*of),
            _ => Computed::Opaque,
        },
        [left, right] => match head {
            Head::Int(Op::Add) => Computed::Sum(*left, *right),
            Head::Real(Op::Add) => Computed::Sum(*left, *right),
            Head::Int(Op::Sub) => Computed::Difference(*left, *right),
            Head::Real(Op::Sub) => Computed::Difference(*left, *right),
            Head::Int(Op::Mul) => Computed::Product(*left, *right),
            Head::Real(Op::Mul) => Computed::Product(*left, *right),
            Head::Real(Op::Div) => Computed::Quotient(*left, *right),
            _ => Computed::Opaque,
        },
        _ => Computed::Opaque,
    }
}
