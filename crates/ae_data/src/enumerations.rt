//! The clauses of enumerations.
ghost use Rattle.std.specs.Prelude.{◌≡◌, ℕ, [], IfOk, map};
ghost use Rattle.ae_core.specs.Signatures.{IsLawful};
ghost use Rattle.ae_core.specs.declared.formulas.Formula.{Eq};
ghost use Rattle.ae_core.specs.declared.problems.Problem.{Problem};
ghost use Rattle.ae_core.specs.declared.proofs.ClauseLine.TheVariants.{Exh};
ghost use Rattle.ae_core.specs.declared.terms.Head.TheVariants.{Symbol};
ghost use Rattle.ae_core.specs.declared.terms.Sort.{out-Sort};
ghost use Rattle.ae_core.specs.declared.terms.Sort.TheOpen.{Named};
ghost use Rattle.ae_core.specs.declared.terms.Term.{Apply};
ghost use Rattle.ae_rules.specs.Clauses.{is_true};
ghost use Rattle.ae_rules.specs.Derivations.{conclusion};
ghost use Rattle.ae_rules.specs.Instances as spec;

use ae_core::copies::copy_term;
use ae_core::formulas::{Clause, Formula, Lit};
use ae_core::lists::{List, at};
use ae_core::problems::{Kind, Signature};
use ae_core::sorts::sort_of;
use ae_core::terms::{Head, Sort, Term};
use std::alloc::{AllocError, Global};

/// The heads that are the symbols of these numbers.
fn symbols(alloc: Global, numbers: &[usize]) -> Result<List<Head>, AllocError>
    ensures { IfOk result (λ hs. hs ≡ map Symbol numbers.now) }
{
    let mut heads = List::new(alloc);
    for number in numbers {
        heads.push(Head::Symbol(*number))?;
    }
    Ok(heads)
}

/// The constructors of the type of this number, where it is an enumeration.
fn declared_choices(
    alloc: Global,
    signature: &Signature,
    number: usize,
) -> Result<Option<List<Head>>, AllocError>
    ensures { IfOk result (λ hs. hs ≡ spec.choices_of signature.now (Named number [])) }
{
    match at(signature.types.as_slice(), number) {
        None => Ok(None),
        Some(entry) => match &entry.kind {
            Kind::Abstract => Ok(None),
            Kind::Fields(_) => Ok(None),
            Kind::Choices(numbers) => Ok(Some(symbols(alloc, numbers.as_slice())?)),
        },
    }
}

/// The constructors of a sort, in their order, where it is an enumeration.
fn choices_of(
    alloc: Global,
    signature: &Signature,
    sort: &Sort,
) -> Result<Option<List<Head>>, AllocError>
    ensures { IfOk result (λ hs. hs ≡ spec.choices_of signature.now (out-Sort sort.now)) }
{
    match sort {
        Sort::Named { head, .. } => declared_choices(alloc, signature, *head),
        Sort::Bool => Ok(Some(List::from_slice(alloc, &[Head::True, Head::False])?)),
        Sort::Unit => Ok(Some(List::from_slice(alloc, &[Head::Void])?)),
        _ => Ok(None),
    }
}

/// The literal that a term is the constant of this head.
fn is_constant(alloc: Global, term: &Term, head: Head) -> Result<Lit, AllocError>
    ensures { IfOk result (λ l. l ≡ is_true (Eq term.now (Apply head [] []))) }
{
    Ok(Lit {
        positive: true,
        formula: Formula::Eq {
            left: copy_term(alloc, term)?,
            right: Term::Apply {
                head,
                sorts: List::new(alloc),
                args: List::new(alloc),
            },
        },
    })
}

/// The clause that a term is one of the constants of these heads.
fn is_one_of(alloc: Global, term: &Term, heads: &[Head]) -> Result<Clause, AllocError>
    ensures { IfOk result (λ c. c ≡ map (λ h. is_true (Eq term.now (Apply h [] []))) heads.now) }
{
    let mut clause = List::new(alloc);
    for head in heads {
        clause.push(is_constant(alloc, term, *head)?)?;
    }
    Ok(clause)
}

/// The clause that a term is one of the constructors of its sort, where that is an enumeration.
fn exhaustion(
    alloc: Global,
    signature: &Signature,
    term: &Term,
) -> Result<Option<Clause>, AllocError>
    ensures { IfOk result (λ c. c ≡ spec.exhaustion signature.now term.now) }
{
    match sort_of(alloc, signature, term)? {
        None => Ok(None),
        Some(sort) => match choices_of(alloc, signature, &sort)? {
            None => Ok(None),
            Some(heads) => Ok(Some(is_one_of(alloc, term, heads.as_slice())?)),
        },
    }
}

/// The clause that a term of an enumeration is one of its constructors, in their order. There is none for a term of another
/// sort, and for one that isn't closed and well sorted. In a lawful signature the line `exh` of the term states this clause.
pub fn exhaust(
    alloc: Global,
    signature: &Signature,
    term: &Term,
) -> Result<Option<Clause>, AllocError>
    ensures clause { IfOk result (λ c. c ≡ spec.exhaustion signature.now term.now) }
    ensures line { IfOk result (λ c. IsLawful signature.now → (p : Problem) (g : ℕ) → p.signature ≡ signature.now → conclusion p g (Exh term.now) ≡ c) }
{
    let clause = exhaustion(alloc, signature, term)?;
    Ok(clause)
}
