//! The linear form of a term, with fractions of any size.
ghost use Rattle.std.specs.Prelude.{◌≡◌, ◌++◌, ◌∷◌, [], IfOk, OnOk, map};
ghost use Rattle.std.specs.List.{list_all};
ghost use Rattle.ae_core.specs.Decided.{Term_discrete};
ghost use Rattle.ae_core.specs.declared.terms.Term.{Term as TermItem};
ghost use Rattle.ae_math.specs.Forms.{factor_in, number as constant_form, single as only, plus, scale};
ghost use Rattle.ae_rules.specs.Linear.{form, is_number as is_number_form, times, ruled};
ghost use Rattle.ae_naturals.specs.Fractions.{value_of};
ghost use Rattle.ae_computing.specs.Inner.Operations.{ruled_by, value_if, number_of as number_spec};
ghost use Rattle.ae_computing.specs.Inner.Exact.{multiples, meaning, scaled, with_form, is_nought_in};

use crate::fractions::{inverse_of, is_nought, minus_one, one, quotient, zero};
use crate::operations::{Operation, operation_of};
use ae_core::terms::Term;
use ae_decide::names::is_term;
use ae_naturals::fractions::Fraction;
use std::alloc::{AllocError, Global};

/// An opaque term with its factor.
#[derive(Drop)]
struct Multiple<'a> {
    term: &'a Term,
    factor: Fraction,
}

/// The sum of multiples of opaque terms, and a constant. A term may stand in several of them.
#[derive(Drop)]
struct ExactForm<'a> {
    parts: Vec<Multiple<'a>>,
    constant: Fraction,
}

/// The form that is a number.
fn number<'a>(alloc: Global, constant: Fraction) -> ExactForm<'a>
    ensures { meaning result ≡ constant_form (value_of constant) }
{
    ExactForm {
        parts: Vec::new(alloc),
        constant,
    }
}

/// The form that is one opaque term.
fn single<'a>(alloc: Global, term: &'a Term) -> Result<ExactForm<'a>, AllocError>
    ensures { IfOk result (λ form. meaning form ≡ only term.now) }
{
    let mut parts = Vec::new(alloc);
    let factor = one(alloc)?;
    parts.push(Multiple { term, factor })?;
    let constant = zero(alloc)?;
    Ok(ExactForm { parts, constant })
}

/// Puts multiples of some multiples behind others.
fn add_multiples<'a>(
    alloc: Global,
    parts: &mut Vec<Multiple<'a>>,
    added: &[Multiple<'a>],
    by: &Fraction,
) -> Result<(), AllocError>
    ensures { OnOk result (multiples parts.new.items ≡ multiples parts.old.items ++ scaled (value_of by.now) (multiples added.now)) }
{
    for part in added {
        let factor = by.times(alloc, &part.factor)?;
        parts.push(Multiple {
            term: part.term,
            factor,
        })?;
    }
    Ok(())
}

/// A form times a number.
fn multiple_of<'a>(
    alloc: Global,
    form: &ExactForm<'a>,
    by: &Fraction,
) -> Result<ExactForm<'a>, AllocError>
    ensures { IfOk result (λ product. meaning product ≡ scale (value_of by.now) (meaning form.now)) }
{
    let mut parts = Vec::new(alloc);
    add_multiples(alloc, &mut parts, form.parts.as_slice(), by)?;
    let constant = by.times(alloc, &form.constant)?;
    Ok(ExactForm { parts, constant })
}

/// The sum of a form and of another times a number.
fn combination<'a>(
    alloc: Global,
    left: &ExactForm<'a>,
    right: &ExactForm<'a>,
    by: &Fraction,
) -> Result<ExactForm<'a>, AllocError>
    ensures { IfOk result (λ sum. meaning sum ≡ plus (meaning left.now) (scale (value_of by.now) (meaning right.now))) }
{
    let mut parts = Vec::new(alloc);
    let once = one(alloc)?;
    add_multiples(alloc, &mut parts, left.parts.as_slice(), &once)?;
    add_multiples(alloc, &mut parts, right.parts.as_slice(), by)?;
    let product = by.times(alloc, &right.constant)?;
    let constant = left.constant.plus(alloc, &product)?;
    Ok(ExactForm { parts, constant })
}

/// The factor of an opaque term: the sum of its factors.
fn factor_of(alloc: Global, parts: &[Multiple], term: &Term) -> Result<Fraction, AllocError>
    ensures { IfOk result (λ factor. value_of factor ≡ factor_in Term_discrete (multiples parts.now) term.now) }
{
    let mut sum = zero(alloc)?;
    for part in parts {
        if is_term(part.term, term) {
            sum = sum.plus(alloc, &part.factor)?;
        }
    }
    Ok(sum)
}

/// Whether each opaque term has the factor 0.
fn are_nought(alloc: Global, parts: &[Multiple]) -> Result<bool, AllocError>
    ensures { IfOk result (λ b. b ≡ list_all (is_nought_in parts.now) parts.now) }
{
    for part in parts {
        let factor = factor_of(alloc, parts, part.term)?;
        if !is_nought(&factor) {
            return Ok(false);
        }
    }
    Ok(true)
}

/// Whether a form is a number: no opaque term has a factor other than 0.
fn is_number(alloc: Global, form: &ExactForm) -> Result<bool, AllocError>
    ensures { IfOk result (λ b. b ≡ is_number_form (meaning form.now)) }
{
    are_nought(alloc, form.parts.as_slice())
}

/// The form of a product: linear where the form of a factor is a number.
fn product<'a>(
    alloc: Global,
    whole: &'a Term,
    left: &ExactForm<'a>,
    right: &ExactForm<'a>,
) -> Result<ExactForm<'a>, AllocError>
    ensures { IfOk result (λ product. meaning product ≡ times whole.now (meaning left.now) (meaning right.now)) }
{
    if is_number(alloc, left)? {
        return multiple_of(alloc, right, &left.constant);
    }
    if is_number(alloc, right)? {
        return multiple_of(alloc, left, &right.constant);
    }
    single(alloc, whole)
}

/// The form of an application to two arguments of these forms, the second of them this term.
fn joined<'a>(
    alloc: Global,
    whole: &'a Term,
    operation: Operation,
    left: &ExactForm<'a>,
    right: &ExactForm<'a>,
    second: &Term,
) -> Result<ExactForm<'a>, AllocError>
    ensures { IfOk result (λ form. (first : TermItem) → meaning form ≡ ruled whole.now (ruled_by operation ((first, meaning left.now) ∷ (second.now, meaning right.now) ∷ []))) }
{
    match operation {
        Operation::Sum => combination(alloc, left, right, &one(alloc)?),
        Operation::Difference => combination(alloc, left, right, &minus_one(alloc)?),
        Operation::Product => product(alloc, whole, left, right),
        Operation::Quotient => match inverse_of(alloc, second)? {
            Some(inverse) => multiple_of(alloc, left, &inverse),
            None => single(alloc, whole),
        },
        Operation::Negation => single(alloc, whole),
        Operation::Opaque => single(alloc, whole),
    }
}

/// The form of an application to one argument of this form.
fn turned<'a>(
    alloc: Global,
    whole: &'a Term,
    operation: Operation,
    of: &ExactForm<'a>,
) -> Result<ExactForm<'a>, AllocError>
    ensures { IfOk result (λ form. (first : TermItem) → meaning form ≡ ruled whole.now (ruled_by operation ((first, meaning of.now) ∷ []))) }
{
    match operation {
        Operation::Negation => multiple_of(alloc, of, &minus_one(alloc)?),
        _ => single(alloc, whole),
    }
}

/// The form of an application to arguments of these forms.
fn applied<'a>(
    alloc: Global,
    whole: &'a Term,
    operation: Operation,
    args: &[Term],
    forms: &[ExactForm<'a>],
) -> Result<ExactForm<'a>, AllocError>
    requires { map meaning forms.now ≡ map form args.now }
    ensures { IfOk result (λ whole_form. meaning whole_form ≡ ruled whole.now (ruled_by operation (map with_form args.now))) }
{
    match forms {
        [of] => turned(alloc, whole, operation, of),
        [left, right] => match args {
            [_, second] => joined(alloc, whole, operation, left, right, second),
            _ => single(alloc, whole),
        },
        _ => single(alloc, whole),
    }
}

/// The forms of some terms.
#[cycle(forms)]
fn forms_of<'a>(alloc: Global, terms: &'a [Term]) -> Result<Vec<ExactForm<'a>>, AllocError>
    ensures { IfOk result (λ forms. map meaning forms.items ≡ map form terms.now) }
{
    let mut forms = Vec::new(alloc);
    for term in terms {
        forms.push(form_of(alloc, term)?)?;
    }
    Ok(forms)
}

/// The form of a term.
#[cycle(forms)]
fn form_of<'a>(alloc: Global, term: &'a Term) -> Result<ExactForm<'a>, AllocError>
    ensures { IfOk result (λ exact. meaning exact ≡ form term.now) }
{
    match term {
        Term::Num { top, bottom, .. } => {
            let constant = quotient(alloc, *top, *bottom)?;
            Ok(number(alloc, constant))
        }
        Term::Apply { head, args, .. } => {
            let forms = forms_of(alloc, args.as_slice())?;
            applied(
                alloc,
                term,
                operation_of(*head),
                args.as_slice(),
                forms.as_slice(),
            )
        }
        Term::Bound(_) => single(alloc, term),
        Term::Fresh { .. } => single(alloc, term),
    }
}

/// The number that the linear form of a term is; `None` where it has an opaque part.
pub fn number_of(alloc: Global, term: &Term) -> Result<Option<Fraction>, AllocError>
    ensures { IfOk result (λ number. value_if number ≡ number_spec term.now) }
{
    let form = form_of(alloc, term)?;
    if is_number(alloc, &form)? {
        Ok(Some(form.constant))
    } else {
        Ok(None)
    }
}
