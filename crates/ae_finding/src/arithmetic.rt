//! Which terms are computed by their linear forms.
ghost use Rattle.std.specs.Prelude.{◌≡◌, IfOk};
ghost use Rattle.ae_rules.specs.Linear.{form, is_number as is_number_form, rule_of};
ghost use Rattle.ae_rules.specs.Matches as matches;
ghost use Rattle.ae_finding.specs.Computed as spec;
ghost use Rattle.ae_matching.specs.Generating as generating;

use ae_computing::forms::number_of;
use ae_computing::fractions::inverse_of;
use ae_core::problems::{Nature, Signature};
use ae_core::terms::{Head, Op, Term};
use std::alloc::{AllocError, Global};

/// Whether the linear form of a term is a number, exactly, whatever its size.
#[tactic(auto, using(crate::proofs::ComputedRules::number_some))]
fn is_number(alloc: Global, term: &Term) -> Result<bool, AllocError>
    ensures { IfOk result (λ b. b ≡ is_number_form (form term.now)) }
{
    let number = number_of(alloc, term)?;
    Ok(number.is_some())
}

/// Whether one of two factors is a number.
fn has_number(alloc: Global, left: &Term, right: &Term) -> Result<bool, AllocError>
    ensures { IfOk result (λ b. b ≡ spec.has_number left.now right.now) }
{
    let first = is_number(alloc, left)?;
    if first {
        return Ok(true);
    }
    let second = is_number(alloc, right)?;
    Ok(second)
}

/// Whether these are two factors of which one is a number.
fn is_multiple(alloc: Global, args: &[Term]) -> Result<bool, AllocError>
    ensures { IfOk result (λ b. b ≡ spec.is_multiple args.now) }
{
    match args {
        [left, right] => has_number(alloc, left, right),
        _ => Ok(false),
    }
}

/// Whether a term is a numeral other than 0.
#[tactic(auto, using(crate::proofs::ComputedRules::divisor_some))]
fn is_divisor(alloc: Global, term: &Term) -> Result<bool, AllocError>
    ensures { IfOk result (λ b. b ≡ matches.is_divisor term.now) }
{
    let inverse = inverse_of(alloc, term)?;
    Ok(inverse.is_some())
}

/// Whether these are a dividend and a numeral other than 0.
fn is_quotient(alloc: Global, args: &[Term]) -> Result<bool, AllocError>
    ensures { IfOk result (λ b. b ≡ spec.is_quotient args.now) }
{
    match args {
        [_, right] => is_divisor(alloc, right),
        _ => Ok(false),
    }
}

/// Whether there are two arguments.
fn are_two(args: &[Term]) -> bool
    ensures { result ≡ spec.are_two args.now }
{
    match args {
        [_, _] => true,
        _ => false,
    }
}

/// Whether there is one argument.
fn is_one(args: &[Term]) -> bool
    ensures { result ≡ spec.is_one args.now }
{
    match args {
        [_] => true,
        _ => false,
    }
}

/// Whether an operation on these arguments is computed, but for quotients.
fn is_sum(alloc: Global, op: Op, args: &[Term]) -> Result<bool, AllocError>
    ensures { IfOk result (λ b. b ≡ spec.is_sum op args.now) }
{
    match op {
        Op::Add => Ok(are_two(args)),
        Op::Sub => Ok(are_two(args)),
        Op::Neg => Ok(is_one(args)),
        Op::Mul => is_multiple(alloc, args),
        Op::Div => Ok(false),
        Op::Mod => Ok(false),
    }
}

/// Whether an application is computed: a sum, a difference, a negation, a product with a constant factor, or a quotient by
/// a numeral other than 0.
#[tactic(auto, using(crate::proofs::ComputedRules::computed_rules))]
fn is_computed(alloc: Global, head: Head, args: &[Term]) -> Result<bool, AllocError>
    ensures { IfOk result (λ b. b ≡ matches.is_computed (rule_of head args.now)) }
{
    match head {
        Head::Int(op) => is_sum(alloc, op, args),
        Head::Real(Op::Div) => is_quotient(alloc, args),
        Head::Real(op) => is_sum(alloc, op, args),
        _ => Ok(false),
    }
}

/// Whether a term is a numeral or is computed by its linear form, exactly, whatever the size of its numbers.
#[tactic(auto, using(crate::proofs::ComputedRules::arithmetic_rules))]
pub fn is_arithmetic(alloc: Global, term: &Term) -> Result<bool, AllocError>
    ensures { IfOk result (λ b. b ≡ matches.is_arithmetic term.now) }
{
    match term {
        Term::Num { .. } => Ok(true),
        Term::Bound(_) => Ok(false),
        Term::Fresh { .. } => Ok(false),
        Term::Apply { head, args, .. } => is_computed(alloc, *head, args.as_slice()),
    }
}

/// Whether a head is an associative and commutative symbol.
pub fn is_ac(signature: &Signature, head: Head) -> bool
    ensures { result ≡ generating.is_ac signature.now head }
{
    match head {
        Head::Symbol(symbol) => match signature.symbols.get(symbol) {
            None => false,
            Some(entry) => match entry.nature {
                Nature::Free => false,
                Nature::Ac => true,
                Nature::Choice { .. } => false,
            },
        },
        Head::Int(Op::Mul) => true,
        Head::Real(Op::Mul) => true,
        _ => false,
    }
}
