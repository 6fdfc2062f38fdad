//! The linear forms of closed terms over numbered keys, and the products and sums that they state.
ghost use Rattle.std.specs.Prelude.{◌≡◌, ◌<ℤ◌, ◌<◌, ◌++◌, pos, neg_ℤ, Some, None, IfOk, OnOk, IfErr, length, List};
ghost use Rattle.std.specs.List.{AllByRecursion};
ghost use Rattle.ae_math.specs.Forms.{single as only, minus, scale as multiple};
ghost use Rattle.ae_num.specs.Forms.{IsNormal, meaning, SameMeaning, sum_of, multiple_of, plus_steps, scale_steps, first_wide, IfWide};
ghost use Rattle.ae_rules.specs.Linear as linear;
ghost use Rattle.ae_core.specs.declared.terms.Term.{Term};
ghost use Rattle.ae_numeric.specs.Stated.{computed, opaque, subtracted, known, inverse_top, inverse_bottom};
ghost use Rattle.ae_numeric.specs.Computing.{AreDistinct, IsFormOf, IsResult, IsWideIn, IsSorted};
ghost use Rattle.ae_numeric.specs.Computing.{Keeps};
ghost use Rattle.ae_numeric.specs.Inner.Rules as spec;
ghost use Rattle.ae_numeric.specs.Inner.Rules.{at, joined, joined_forms, Fits, AreResults, IsWideInBoth};
ghost use Rattle.ae_numeric.specs.declared.forms.Rule.TheVariants.{Scale};
ghost use Rattle.ae_numeric.specs.declared.forms.Operation.TheVariants.{Product};

use crate::keys::Keys;
use ae_core::terms::{Head, Op, Term};
use ae_num::forms::{Lin, fraction, plus, scale, single};
use ae_num::numbers::NumFail;
use std::alloc::Global;

/// What makes one form of two.
#[derive(Clone, Copy)]
pub enum Operation {
    Sum,
    Difference,
    /// Linear where a factor is a number.
    Product,
}

/// How the form of an application is made from those of its arguments.
#[derive(Clone, Copy)]
pub enum Rule {
    /// The application is a key.
    Opaque,
    /// The first argument's form times `top / bottom`.
    Scale { top: i128, bottom: i128 },
    /// What an operation makes of the two arguments' forms.
    Pair(Operation),
}

/// The rule of an operation on so many arguments, but for quotients of real numbers.
fn operation_rule(op: Op, args: usize) -> Rule
    ensures { result ≡ spec.operation_rule op args }
{
    match op {
        Op::Add => pair_rule(Operation::Sum, args),
        Op::Sub => pair_rule(Operation::Difference, args),
        Op::Neg => {
            if args == 1 {
                Rule::Scale { top: -1, bottom: 1 }
            } else {
                Rule::Opaque
            }
        }
        Op::Mul => pair_rule(Operation::Product, args),
        Op::Div => Rule::Opaque,
        Op::Mod => Rule::Opaque,
    }
}

/// The operation, where there are two arguments.
fn pair_rule(operation: Operation, args: usize) -> Rule
    ensures { result ≡ spec.pair_rule operation args }
{
    if args == 2 {
        Rule::Pair(operation)
    } else {
        Rule::Opaque
    }
}

/// A number's inverse as a factor. The number isn't 0.
fn inverse(of: &Lin) -> Rule
    requires { IsNormal of.now }
    ensures { result ≡ Scale (inverse_top of.now) (inverse_bottom of.now) }
{
    if of.constant < 0 {
        Rule::Scale {
            top: -of.den,
            bottom: -of.constant,
        }
    } else {
        Rule::Scale {
            top: of.den,
            bottom: of.constant,
        }
    }
}

/// The rule of a quotient by this term.
fn divisor_rule(alloc: Global, divisor: &Term) -> Rule
    requires sorted { IsSorted divisor.now }
    ensures { result ≡ spec.divisor_rule divisor.now }
{
    match divisor {
        Term::Bound(_) => Rule::Opaque,
        Term::Num { top, bottom, .. } => {
            if *top == 0 {
                Rule::Opaque
            } else {
                inverse(&fraction(alloc, *top, *bottom))
            }
        }
        Term::Fresh { .. } => Rule::Opaque,
        Term::Apply { .. } => Rule::Opaque,
    }
}

/// The rule of a quotient of real numbers.
fn quotient_rule(alloc: Global, args: &[Term]) -> Rule
    requires sorted { AllByRecursion IsSorted args.now }
    ensures { result ≡ spec.quotient_rule args.now }
{
    if args.len() == 2 {
        divisor_rule(alloc, &args[1])
    } else {
        Rule::Opaque
    }
}

/// The rule of an application.
fn rule_of(alloc: Global, head: Head, args: &[Term]) -> Rule
    requires sorted { AllByRecursion IsSorted args.now }
    ensures { result ≡ spec.rule_of head args.now }
{
    match head {
        Head::Symbol(_) => Rule::Opaque,
        Head::Build(_) => Rule::Opaque,
        Head::Field { .. } => Rule::Opaque,
        Head::Int(op) => operation_rule(op, args.len()),
        Head::Real(Op::Div) => quotient_rule(alloc, args),
        Head::Real(op) => operation_rule(op, args.len()),
        Head::True => Rule::Opaque,
        Head::False => Rule::Opaque,
        Head::Void => Rule::Opaque,
    }
}

/// The form that is one opaque term.
fn opaque_form<'a>(alloc: Global, keys: &mut Keys<'a>, term: &'a Term) -> Result<Lin, NumFail>
    requires keys { AreDistinct keys.old }
    ensures result { IfOk result (λ form. IsResult (opaque term.now) keys.old keys.new form) }
    ensures meaning { IfOk result (λ form. IsFormOf keys.new form (only term.now)) }
    ensures kept { OnOk result (Keeps keys.old keys.new) }
    ensures wide { IfErr result (λ fail. IsWideIn (opaque term.now) keys.old fail) }
{
    let number = keys.number_of(term)?;
    Ok(single(alloc, number)?)
}

/// The difference of two forms.
fn form_difference(alloc: Global, left: &Lin, right: &Lin) -> Result<Lin, NumFail>
    requires left { IsNormal left.now }
    requires right { IsNormal right.now }
    ensures form { IfOk result (λ form. form ≡ sum_of left.now (multiple_of (neg_ℤ (pos 1)) (pos 1) right.now)) }
    ensures exact { IfOk result (λ form. SameMeaning (meaning form) (minus (meaning left.now) (meaning right.now))) }
    ensures normal { IfOk result (λ form. IsNormal form) }
    ensures fits { OnOk result (first_wide (scale_steps (neg_ℤ (pos 1)) (pos 1) right.now ++ plus_steps left.now (multiple_of (neg_ℤ (pos 1)) (pos 1) right.now)) ≡ None) }
    ensures wide { IfErr result (λ fail. IfWide fail (λ wide. first_wide (scale_steps (neg_ℤ (pos 1)) (pos 1) right.now ++ plus_steps left.now (multiple_of (neg_ℤ (pos 1)) (pos 1) right.now)) ≡ Some wide)) }
{
    let negated = scale(alloc, -1, 1, right)?;
    plus(alloc, left, &negated)
}

/// The product of two forms: a multiple of one where the other is a number, and opaque otherwise.
fn form_product<'a>(
    alloc: Global,
    keys: &mut Keys<'a>,
    whole: &'a Term,
    left: &Lin,
    right: &Lin,
) -> Result<Lin, NumFail>
    requires keys { AreDistinct keys.old }
    requires left { IsNormal left.now }
    requires right { IsNormal right.now }
    ensures result { IfOk result (λ form. IsResult (joined Product whole.now (known left.now) (known right.now)) keys.old keys.new form) }
    ensures meaning { (f g : linear.Linear) → IsFormOf keys.old left.now f → IsFormOf keys.old right.now g → IfOk result (λ form. IsFormOf keys.new form (linear.times whole.now f g)) }
    ensures kept { OnOk result (Keeps keys.old keys.new) }
    ensures wide { IfErr result (λ fail. IsWideIn (joined Product whole.now (known left.now) (known right.now)) keys.old fail) }
{
    if left.parts.is_empty() {
        return scale(alloc, left.constant, left.den, right);
    }
    if right.parts.is_empty() {
        return scale(alloc, right.constant, right.den, left);
    }
    opaque_form(alloc, keys, whole)
}

/// What an operation makes of two forms; an opaque product is the whole term.
fn joined_form<'a>(
    alloc: Global,
    keys: &mut Keys<'a>,
    whole: &'a Term,
    operation: Operation,
    left: &Lin,
    right: &Lin,
) -> Result<Lin, NumFail>
    requires keys { AreDistinct keys.old }
    requires left { IsNormal left.now }
    requires right { IsNormal right.now }
    ensures result { IfOk result (λ form. IsResult (joined operation whole.now (known left.now) (known right.now)) keys.old keys.new form) }
    ensures meaning { (f g : linear.Linear) → IsFormOf keys.old left.now f → IsFormOf keys.old right.now g → IfOk result (λ form. IsFormOf keys.new form (joined_forms operation whole.now f g)) }
    ensures kept { OnOk result (Keeps keys.old keys.new) }
    ensures wide { IfErr result (λ fail. IsWideIn (joined operation whole.now (known left.now) (known right.now)) keys.old fail) }
{
    match operation {
        Operation::Sum => plus(alloc, left, right),
        Operation::Difference => form_difference(alloc, left, right),
        Operation::Product => form_product(alloc, keys, whole, left, right),
    }
}

/// The forms of two arguments.
#[cycle(form_of)]
fn both_forms<'a>(
    alloc: Global,
    keys: &mut Keys<'a>,
    args: &'a [Term],
) -> Result<(Lin, Lin), NumFail>
    requires two { length args.now ≡ 2 }
    requires sorted { AllByRecursion IsSorted args.now }
    requires keys { AreDistinct keys.old }
    ensures result { IfOk result (λ forms. AreResults (computed (at args.now 0)) (computed (at args.now 1)) keys.old keys.new forms.0 forms.1) }
    ensures left { IfOk result (λ forms. IsFormOf keys.new forms.0 (linear.form (at args.now 0))) }
    ensures right { IfOk result (λ forms. IsFormOf keys.new forms.1 (linear.form (at args.now 1))) }
    ensures kept { OnOk result (Keeps keys.old keys.new) }
    ensures wide { IfErr result (λ fail. IsWideInBoth (computed (at args.now 0)) (computed (at args.now 1)) keys.old fail) }
{
    let left = form_of(alloc, keys, &args[0])?;
    let right = form_of(alloc, keys, &args[1])?;
    Ok((left, right))
}

/// The form of a closed term: its value as a sum of fractions times keys, and a fraction.
///
/// It is computed from the forms of the term's parts, the left one first. `Wide` comes exactly where
/// a product or a sum that this states leaves the limits, with the first one.
#[cycle(form_of)]
pub fn form_of<'a>(alloc: Global, keys: &mut Keys<'a>, term: &'a Term) -> Result<Lin, NumFail>
    requires sorted { IsSorted term.now }
    requires keys { AreDistinct keys.old }
    ensures result { IfOk result (λ form. IsResult (computed term.now) keys.old keys.new form) }
    ensures meaning { IfOk result (λ form. IsFormOf keys.new form (linear.form term.now)) }
    ensures kept { OnOk result (Keeps keys.old keys.new) }
    ensures wide { IfErr result (λ fail. IsWideIn (computed term.now) keys.old fail) }
{
    match term {
        Term::Bound(_) => opaque_form(alloc, keys, term),
        Term::Num { top, bottom, .. } => Ok(fraction(alloc, *top, *bottom)),
        Term::Fresh { .. } => opaque_form(alloc, keys, term),
        Term::Apply { head, args, .. } => match rule_of(alloc, *head, args.as_slice()) {
            Rule::Opaque => opaque_form(alloc, keys, term),
            Rule::Scale { top, bottom } => {
                let of = form_of(alloc, keys, &args.as_slice()[0])?;
                scale(alloc, top, bottom, &of)
            }
            Rule::Pair(operation) => {
                let (left, right) = both_forms(alloc, keys, args.as_slice())?;
                joined_form(alloc, keys, term, operation, &left, &right)
            }
        },
    }
}

/// The form of one closed term minus that of another.
///
/// Both forms are computed, the first one first; then the second is multiplied by -1 and added.
pub fn difference<'a>(
    alloc: Global,
    keys: &mut Keys<'a>,
    left: &'a Term,
    right: &'a Term,
) -> Result<Lin, NumFail>
    requires left { IsSorted left.now }
    requires right { IsSorted right.now }
    requires keys { AreDistinct keys.old }
    ensures result { IfOk result (λ form. IsResult (subtracted (computed left.now) (computed right.now)) keys.old keys.new form) }
    ensures meaning { IfOk result (λ form. IsFormOf keys.new form (minus (linear.form left.now) (linear.form right.now))) }
    ensures kept { OnOk result (Keeps keys.old keys.new) }
    ensures wide { IfErr result (λ fail. IsWideIn (subtracted (computed left.now) (computed right.now)) keys.old fail) }
{
    let left = form_of(alloc, keys, left)?;
    let right = form_of(alloc, keys, right)?;
    form_difference(alloc, &left, &right)
}
