//! The sides of inequality literals.
ghost use Rattle.std.specs.Prelude.{◌≡◌, true, false, Some, None, IfSome, IfNone};
ghost use Rattle.ae_core.specs.declared.formulas.Formula.{out-Formula};
ghost use Rattle.ae_journal.specs.States.{inequality, inequality_of};

use ae_core::formulas::{Formula, Lit};
use ae_core::terms::Term;

/// An inequality, by its sides.
#[derive(Clone, Copy)]
pub struct Comparison<'a> {
    /// The side that isn't less.
    pub upper: &'a Term,
    pub lower: &'a Term,
    /// Whether equality is excluded.
    pub strict: bool,
}

/// The sides of an inequality that holds.
fn sides_of<'a>(formula: &'a Formula) -> Option<Comparison<'a>>
    ensures some { IfSome result (λ sides. inequality_of true (out-Formula formula.now) ≡ Some (sides.upper.now, sides.lower.now, sides.strict)) }
    ensures none { IfNone result (inequality_of true (out-Formula formula.now) ≡ None) }
{
    match formula {
        Formula::Lt { left, right } => Some(Comparison {
            upper: right,
            lower: left,
            strict: true,
        }),
        Formula::Le { left, right } => Some(Comparison {
            upper: right,
            lower: left,
            strict: false,
        }),
        _ => None,
    }
}

/// The sides of the inequality that holds where a formula doesn't.
fn opposite_sides_of<'a>(formula: &'a Formula) -> Option<Comparison<'a>>
    ensures some { IfSome result (λ sides. inequality_of false (out-Formula formula.now) ≡ Some (sides.upper.now, sides.lower.now, sides.strict)) }
    ensures none { IfNone result (inequality_of false (out-Formula formula.now) ≡ None) }
{
    match formula {
        Formula::Lt { left, right } => Some(Comparison {
            upper: left,
            lower: right,
            strict: false,
        }),
        Formula::Le { left, right } => Some(Comparison {
            upper: left,
            lower: right,
            strict: true,
        }),
        _ => None,
    }
}

/// The sides of a literal, if it is an inequality.
pub fn sides<'a>(literal: &'a Lit) -> Option<Comparison<'a>>
    ensures some { IfSome result (λ sides. inequality literal.now ≡ Some (sides.upper.now, sides.lower.now, sides.strict)) }
    ensures none { IfNone result (inequality literal.now ≡ None) }
{
    if literal.positive {
        sides_of(&literal.formula)
    } else {
        opposite_sides_of(&literal.formula)
    }
}
