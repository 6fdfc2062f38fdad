//! Formulas made of the answers for their parts. An error of a part is the error of the whole.
//! They are boxed, and made in frames of their own, so that a walk down a tree takes little of the stack at each level.

ghost use Rattle.std.specs.Prelude.{◌≡◌, List, IfOk};
ghost use Rattle.ae_core.specs.declared.formulas.Formula.{Formula, False, Not, Or, True};
ghost use Rattle.ae_core.specs.declared.terms.Sort.{Sort};
ghost use Rattle.ae_core.specs.declared.terms.Term.{Term};
ghost use Rattle.ae_elab.specs.Elaboration as rule;
ghost use Rattle.ae_translation.specs.Inner.Connected.{connected};

use crate::answers::both;
use ae_core::formulas::Formula;
use ae_core::lists::{Boxed, List};
use ae_core::terms::{Sort, Term};
use ae_elab::nodes::Connective;
use ae_elaboration::elaboration::{either_way, implication, over};
use ae_syntax::exprs::Quantifier;
use std::alloc::{AllocError, Global};

/// `true`.
#[inline(never)]
pub fn truth(alloc: Global) -> Result<Boxed<Formula>, AllocError>
    ensures { IfOk result (λ z. z ≡ True) }
{
    Boxed::new(alloc, Formula::True)
}

/// `false`.
#[inline(never)]
pub fn falsity(alloc: Global) -> Result<Boxed<Formula>, AllocError>
    ensures { IfOk result (λ z. z ≡ False) }
{
    Boxed::new(alloc, Formula::False)
}

/// `not a`.
#[inline(never)]
pub fn denied(
    alloc: Global,
    formula: Result<Boxed<Formula>, AllocError>,
) -> Result<Boxed<Formula>, AllocError>
    ensures { (f : Formula) → IfOk formula (λ z. z ≡ f) → IfOk result (λ z. z ≡ Not f) }
{
    match formula {
        Ok(part) => Boxed::new(alloc, Formula::Not(part)),
        Err(error) => Err(error),
    }
}

// `a -> b`.
fn implied(
    alloc: Global,
    left: Boxed<Formula>,
    right: Boxed<Formula>,
) -> Result<Formula, AllocError>
    ensures { IfOk result (λ f. f ≡ Or (Not left) right) }
{
    let premise = left.into_inner();
    let conclusion = right.into_inner();
    implication(alloc, premise, conclusion)
}

// Two formulas, joined.
fn joined(
    alloc: Global,
    connective: Connective,
    left: Boxed<Formula>,
    right: Boxed<Formula>,
) -> Result<Formula, AllocError>
    ensures { IfOk result (λ f. f ≡ connected connective left right) }
{
    match connective {
        Connective::Implication => implied(alloc, left, right),
        Connective::Conjunction => Ok(Formula::And(left, right)),
        Connective::Disjunction => Ok(Formula::Or(left, right)),
        Connective::Exclusion => Ok(Formula::Xor(left, right)),
        Connective::Equivalence => Ok(Formula::Iff(left, right)),
    }
}

/// Two formulas with a connective between them.
#[inline(never)]
pub fn joined_by(
    alloc: Global,
    connective: Connective,
    left: Result<Boxed<Formula>, AllocError>,
    right: Result<Boxed<Formula>, AllocError>,
) -> Result<Boxed<Formula>, AllocError>
    ensures { (f g : Formula) → IfOk left (λ z. z ≡ f) → IfOk right (λ z. z ≡ g) → IfOk result (λ z. z ≡ connected connective f g) }
{
    let (left, right) = both(left, right)?;
    let formula = joined(alloc, connective, left, right)?;
    Boxed::new(alloc, formula)
}

/// `if` between formulas.
#[inline(never)]
pub fn conditional(
    alloc: Global,
    condition: Result<Boxed<Formula>, AllocError>,
    positive: Result<Boxed<Formula>, AllocError>,
    negative: Result<Boxed<Formula>, AllocError>,
) -> Result<Boxed<Formula>, AllocError>
    ensures { (c f g : Formula) → IfOk condition (λ z. z ≡ c) → IfOk positive (λ z. z ≡ f) → IfOk negative (λ z. z ≡ g)
        → IfOk result (λ z. z ≡ rule.either_way c f g) }
{
    let cases = both(positive, negative);
    let (condition, (positive, negative)) = both(condition, cases)?;
    let test = condition.into_inner();
    let yes = positive.into_inner();
    let no = negative.into_inner();
    let formula = either_way(alloc, test, yes, no)?;
    Boxed::new(alloc, formula)
}

/// A block of variables of these sorts, with its triggers, round a formula.
#[inline(never)]
pub fn quantified(
    alloc: Global,
    quantifier: Quantifier,
    sorts: Result<List<Sort>, AllocError>,
    triggers: Result<List<List<Term>>, AllocError>,
    body: Result<Boxed<Formula>, AllocError>,
) -> Result<Boxed<Formula>, AllocError>
    ensures { (ss : List Sort) (ts : List (List Term)) (f : Formula) → IfOk sorts (λ zs. zs ≡ ss) → IfOk triggers (λ zs. zs ≡ ts) → IfOk body (λ z. z ≡ f)
        → IfOk result (λ z. z ≡ rule.over quantifier ss ts f) }
{
    let inner = both(triggers, body);
    let (sorts, (triggers, body)) = both(sorts, inner)?;
    let under = body.into_inner();
    let formula = over(alloc, quantifier, sorts, triggers, under)?;
    Boxed::new(alloc, formula)
}
