//! The clauses of enumerations, and of the order of two numbers.
ghost use Rattle.std.specs.Prelude.{◌≡◌, ◌∷◌, [], IfOk, map};
ghost use Rattle.ae_rules.specs.Clauses.{is_true};
ghost use Rattle.ae_rules.specs.Instances as spec;
ghost use Rattle.ae_core.specs.declared.formulas.Formula.{Eq, Lt};
ghost use Rattle.ae_core.specs.declared.terms.Head.TheVariants.{Symbol};
ghost use Rattle.ae_core.specs.declared.terms.Sort.{out-Sort};
ghost use Rattle.ae_core.specs.declared.terms.Sort.TheOpen.{Named};
ghost use Rattle.ae_core.specs.declared.terms.Term.{Apply};

use ae_core::copies::copy_term;
use ae_core::formulas::{Clause, Formula, Lit};
use ae_core::lists::{List, at};
use ae_core::problems::{Kind, Signature};
use ae_core::sorts::{same_numeric, sort_of};
use ae_core::terms::{Head, Sort, Term};
use std::alloc::{AllocError, Global};

/// The heads that are the symbols of these numbers.
fn symbols(alloc: Global, numbers: &[usize]) -> Result<List<Head>, AllocError>
    ensures { IfOk result (λ hs. hs ≡ map Symbol numbers.now) }
{
    let mut heads = List::new(alloc);
    for number in numbers {
        heads.push(Head::Symbol(*number))?;
    }
    Ok(heads)
}

/// The constructors of the type of this number, where it is an enumeration.
fn named_choices(
    alloc: Global,
    signature: &Signature,
    head: usize,
) -> Result<Option<List<Head>>, AllocError>
    ensures { IfOk result (λ hs. hs ≡ spec.choices_of signature.now (Named head [])) }
{
    match at(signature.types.as_slice(), head) {
        None => Ok(None),
        Some(entry) => match &entry.kind {
            Kind::Abstract => Ok(None),
            Kind::Fields(_) => Ok(None),
            Kind::Choices(numbers) => Ok(Some(symbols(alloc, numbers.as_slice())?)),
        },
    }
}

/// The constructors of a sort, in their order, where it is an enumeration.
pub fn choices_of(
    alloc: Global,
    signature: &Signature,
    sort: &Sort,
) -> Result<Option<List<Head>>, AllocError>
    ensures { IfOk result (λ hs. hs ≡ spec.choices_of signature.now (out-Sort sort.now)) }
{
    match sort {
        Sort::Named { head, .. } => named_choices(alloc, signature, *head),
        Sort::Bool => {
            let mut heads = List::new(alloc);
            heads.push(Head::True)?;
            heads.push(Head::False)?;
            Ok(Some(heads))
        }
        Sort::Unit => {
            let mut heads = List::new(alloc);
            heads.push(Head::Void)?;
            Ok(Some(heads))
        }
        _ => Ok(None),
    }
}

/// The literal that a term is the constant of this head.
fn is_constant(alloc: Global, term: &Term, head: Head) -> Result<Lit, AllocError>
    ensures { IfOk result (λ l. l ≡ is_true (Eq term.now (Apply head [] []))) }
{
    Ok(Lit {
        positive: true,
        formula: Formula::Eq {
            left: copy_term(alloc, term)?,
            right: Term::Apply {
                head,
                sorts: List::new(alloc),
                args: List::new(alloc),
            },
        },
    })
}

/// The clause that a term is one of the constants of these heads.
fn is_one_of(alloc: Global, term: &Term, heads: &[Head]) -> Result<Clause, AllocError>
    ensures { IfOk result (λ c. c ≡ map (λ h. is_true (Eq term.now (Apply h [] []))) heads.now) }
{
    let mut clause = List::new(alloc);
    for head in heads {
        clause.push(is_constant(alloc, term, *head)?)?;
    }
    Ok(clause)
}

/// The clause that a term is one of the constructors of its enumeration. There is none where its sort isn't one.
pub fn exhaustion(
    alloc: Global,
    signature: &Signature,
    term: &Term,
) -> Result<Option<Clause>, AllocError>
    ensures { IfOk result (λ c. c ≡ spec.exhaustion signature.now term.now) }
{
    match sort_of(alloc, signature, term)? {
        None => Ok(None),
        Some(sort) => match choices_of(alloc, signature, &sort)? {
            None => Ok(None),
            Some(heads) => Ok(Some(is_one_of(alloc, term, heads.as_slice())?)),
        },
    }
}

/// The literal that two terms are equal.
fn equal(alloc: Global, left: &Term, right: &Term) -> Result<Lit, AllocError>
    ensures { IfOk result (λ l. l ≡ is_true (Eq left.now right.now)) }
{
    Ok(Lit {
        positive: true,
        formula: Formula::Eq {
            left: copy_term(alloc, left)?,
            right: copy_term(alloc, right)?,
        },
    })
}

/// The literal that a number is below another one.
fn below(alloc: Global, left: &Term, right: &Term) -> Result<Lit, AllocError>
    ensures { IfOk result (λ l. l ≡ is_true (Lt left.now right.now)) }
{
    Ok(Lit {
        positive: true,
        formula: Formula::Lt {
            left: copy_term(alloc, left)?,
            right: copy_term(alloc, right)?,
        },
    })
}

/// The clause that two terms are equal, or one is below the other.
fn in_order(alloc: Global, left: &Term, right: &Term) -> Result<Clause, AllocError>
    ensures { IfOk result (λ c. c ≡ is_true (Eq left.now right.now) ∷ is_true (Lt left.now right.now) ∷ is_true (Lt right.now left.now) ∷ []) }
{
    let mut clause = List::new(alloc);
    clause.push(equal(alloc, left, right)?)?;
    clause.push(below(alloc, left, right)?)?;
    clause.push(below(alloc, right, left)?)?;
    Ok(clause)
}

/// The clause that two numbers are equal, or one is below the other. There is none where they aren't numbers of one sort.
pub fn trichotomy(
    alloc: Global,
    signature: &Signature,
    left: &Term,
    right: &Term,
) -> Result<Option<Clause>, AllocError>
    ensures { IfOk result (λ c. c ≡ spec.trichotomy signature.now left.now right.now) }
{
    let from = sort_of(alloc, signature, left)?;
    let to = sort_of(alloc, signature, right)?;
    if !same_numeric(&from, &to) {
        return Ok(None);
    }
    Ok(Some(in_order(alloc, left, right)?))
}
