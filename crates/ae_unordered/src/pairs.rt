//! Two numbers that are denied to be equal, of which the one is denied to be below the other.
ghost use Rattle.std.specs.Prelude.{◌≡◌, Some, None, MatchBool, MatchOption, IfSome, IfNone, IfOk};
ghost use Rattle.ae_core.specs.declared.terms.Term.{Term as TermOf};
ghost use Rattle.ae_core.specs.declared.formulas.Formula.{Eq, Lt, out-Formula};
ghost use Rattle.ae_filled_trails.specs.Ordered.{AreOrdered};
ghost use Rattle.ae_rules.specs.Clauses as spec;
ghost use Rattle.ae_unordered.specs.Denied.{denied_equation, equation_by};
ghost use Rattle.ae_unordered.specs.Inner.Sides.{BothSaid, IsLeftOpen, IsSaid};
ghost use Rattle.ae_unordered.specs.Unordered.{IsOpenPair};

use ae_core::copies::copy_term;
use ae_core::formulas::{Formula, Lit};
use ae_core::lists::Boxed;
use ae_core::terms::Term;
use ae_explain::Trail;
use ae_propagation::settle::{is_false, is_true};
use std::alloc::{AllocError, Global};

/// Two numbers, the one first that isn't greater.
#[derive(Drop)]
pub struct Pair {
    pub left: Term,
    pub right: Term,
}

/// The sides of an equation.
#[derive(Clone, Copy)]
pub struct Equation<'a> {
    pub left: &'a Term,
    pub right: &'a Term,
}

/// The sides of a formula that is an equation.
fn equation_sides<'a>(formula: &'a Formula) -> Option<Equation<'a>>
    ensures some { IfSome result (λ sides. equation_by (out-Formula formula.now) ≡ Some (sides.left.now, sides.right.now)) }
    ensures none { IfNone result (equation_by (out-Formula formula.now) ≡ None) }
{
    match formula {
        Formula::Eq { left, right } => Some(Equation { left, right }),
        _ => None,
    }
}

/// The sides of a literal that denies an equation.
pub fn denied_sides<'a>(literal: &'a Lit) -> Option<Equation<'a>>
    ensures some { IfSome result (λ sides. denied_equation literal.now ≡ Some (sides.left.now, sides.right.now)) }
    ensures none { IfNone result (denied_equation literal.now ≡ None) }
{
    if literal.positive {
        return None;
    }
    equation_sides(&literal.formula)
}

/// That one number is below another.
pub fn below(alloc: Global, left: &Term, right: &Term) -> Result<Boxed<Lit>, AllocError>
    ensures { IfOk result (λ l. l ≡ spec.is_true (Lt left.now right.now)) }
{
    Boxed::new(
        alloc,
        Lit {
            positive: true,
            formula: Formula::Lt {
                left: copy_term(alloc, left)?,
                right: copy_term(alloc, right)?,
            },
        },
    )
}

/// Whether it is denied that the one is below the other, and not said that the other is below the one.
fn is_left_open(alloc: Global, trail: &Trail, one: &Term, other: &Term) -> Result<bool, AllocError>
    ensures { IfOk result (λ found. MatchBool found (IsLeftOpen trail.now.assigned one.now other.now) (IsSaid trail.now.assigned one.now other.now)) }
{
    let rising = below(alloc, one, other)?;
    let falling = below(alloc, other, one)?;
    if is_true(trail, falling.get()) {
        return Ok(false);
    }
    Ok(is_false(trail, rising.get()))
}

/// Two numbers, by copies.
fn pair_of(alloc: Global, left: &Term, right: &Term) -> Result<Pair, AllocError>
    ensures { IfOk result (λ pair. (pair.left ≡ left.now) × (pair.right ≡ right.now)) }
{
    let left = copy_term(alloc, left)?;
    let right = copy_term(alloc, right)?;
    Ok(Pair { left, right })
}

/// Two numbers whose order is left open, the one first that isn't greater.
fn open_pair(
    alloc: Global,
    trail: &Trail,
    left: &Term,
    right: &Term,
) -> Result<Option<Pair>, AllocError>
    ensures { IfOk result (λ found. MatchOption found (BothSaid trail.now.assigned left.now right.now) (IsOpenPair trail.now.assigned)) }
{
    let first = is_left_open(alloc, trail, left, right)?;
    if first {
        let turned = pair_of(alloc, right, left)?;
        return Ok(Some(turned));
    }
    let second = is_left_open(alloc, trail, right, left)?;
    if second {
        let same = pair_of(alloc, left, right)?;
        return Ok(Some(same));
    }
    Ok(None)
}

/// Two numbers of which a literal denies that they are equal, if their order is left open.
fn pair_at(alloc: Global, trail: &Trail, literal: &Lit) -> Result<Option<Pair>, AllocError>
    ensures { IfOk result (λ found. MatchOption found ((s : TermOf) (u : TermOf) → literal.now ≡ spec.is_false (Eq s u) → BothSaid trail.now.assigned s u) (IsOpenPair trail.now.assigned)) }
{
    match denied_sides(literal) {
        None => Ok(None),
        Some(sides) => open_pair(alloc, trail, sides.left, sides.right),
    }
}

/// Two numbers of which a trail denies that they are equal, and that the second is below the first, without saying that the first is below the second; the first
/// such. `None` where there are none.
pub fn next_unordered(alloc: Global, trail: &Trail) -> Result<Option<Pair>, AllocError>
    ensures { IfOk result (λ found. MatchOption found (AreOrdered trail.now.assigned) (IsOpenPair trail.now.assigned)) }
{
    for place in 0..trail.len() {
        let found = pair_at(alloc, trail, trail.lit_at(place))?;
        match found {
            None => {}
            Some(pair) => return Ok(Some(pair)),
        }
    }
    Ok(None)
}
