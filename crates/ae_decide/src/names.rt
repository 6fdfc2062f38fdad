//! The terms of a system: whether they are closed, all different, and stand with their subterms and fields.
ghost use Rattle.std.specs.Prelude.{◌≡◌, ◌↔◌, ◌+◌, ◌∷◌, [], true, IfOk};
ghost use Rattle.std.specs.List.{list_all};
ghost use Rattle.ae_base.specs.Decided.{decided};
ghost use Rattle.ae_core.specs.Decided.{Head_discrete, Term_discrete};
ghost use Rattle.ae_core.specs.declared.terms.Head.TheVariants as head;
ghost use Rattle.ae_core.specs.declared.terms.Term.{Apply};
ghost use Rattle.ae_rules.specs.Lines.{fields_from};
ghost use Rattle.ae_decide.specs.Clauses.{HasTerms};
ghost use Rattle.ae_decide.specs.Names as spec;

use ae_core::copies::{copy_sorts, copy_term};
use ae_core::equality::{same_head, same_term};
use ae_core::lists::List;
use ae_core::problems::{Kind, Signature};
use ae_core::sorts::{sort_of, trigger_ok};
use ae_core::terms::{Head, Sort, Term};
use ae_journal::systems::System;
use std::alloc::{AllocError, Global};

/// Whether two terms are the same, as the definitions say it.
pub fn is_term(left: &Term, right: &Term) -> bool
    ensures { result ≡ decided (Term_discrete left.now right.now) }
{
    same_term(left, right)
}

/// Whether two heads are the same, as the definitions say it.
pub fn is_head(left: Head, right: Head) -> bool
    ensures { result ≡ decided (Head_discrete left right) }
{
    same_head(left, right)
}

/// Whether a term is one of these.
fn stands_in(terms: &[Term], wanted: &Term) -> bool
    ensures { result ≡ spec.stands_in terms.now wanted.now }
{
    for term in terms {
        if is_term(term, wanted) {
            return true;
        }
    }
    false
}

/// Whether each of some terms is one of these.
fn all_stand_in(terms: &[Term], wanted: &[Term]) -> bool
    ensures { result ≡ list_all (spec.stands_in terms.now) wanted.now }
{
    for term in wanted {
        if !stands_in(terms, term) {
            return false;
        }
    }
    true
}

/// Whether no term stands twice.
#[tactic(auto, using(crate::proofs::NameTests::apart_step))]
fn are_apart(terms: &[Term]) -> bool
    ensures { result ≡ spec.are_apart terms.now }
{
    for i in 0..terms.len() {
        if stands_in(&terms[i + 1..], &terms[i]) {
            return false;
        }
    }
    true
}

/// Whether the arguments of a term are among these.
fn has_args(names: &[Term], term: &Term) -> bool
    ensures { result ≡ list_all (spec.stands_in names.now) (spec.args_of term.now) }
{
    match term {
        Term::Apply { args, .. } => all_stand_in(names, args.as_slice()),
        _ => true,
    }
}

/// The field at a place of a record.
pub fn field_of(
    alloc: Global,
    of: usize,
    place: usize,
    sorts: &[Sort],
    term: &Term,
) -> Result<Term, AllocError>
    ensures { IfOk result (λ t. t ≡ Apply (head.Field of place) sorts.now (term.now ∷ [])) }
{
    let mut args = List::new(alloc);
    args.push(copy_term(alloc, term)?)?;
    Ok(Term::Apply {
        head: Head::Field { of, place },
        sorts: copy_sorts(alloc, sorts)?,
        args,
    })
}

/// Whether the fields of a record are among these.
#[tactic(auto, using(crate::proofs::NameTests::fields_step))]
fn has_each_field(
    alloc: Global,
    names: &[Term],
    of: usize,
    sorts: &[Sort],
    count: usize,
    term: &Term,
) -> Result<bool, AllocError>
    ensures { IfOk result (λ b. b ≡ list_all (spec.stands_in names.now) (fields_from of sorts.now term.now 0 count)) }
{
    for place in 0..count {
        let field = field_of(alloc, of, place, sorts, term)?;
        if !stands_in(names, &field) {
            return Ok(false);
        }
    }
    Ok(true)
}

/// Whether the fields of a term of this sort are among these; a sort that is no record's has none.
fn has_fields_by(
    alloc: Global,
    signature: &Signature,
    names: &[Term],
    sort: &Sort,
    term: &Term,
) -> Result<bool, AllocError>
    ensures { IfOk result (λ b. b ≡ list_all (spec.stands_in names.now) (spec.fields_by signature.now term.now sort.now)) }
{
    match sort {
        Sort::Named { head, args } => match signature.types.get(*head) {
            None => Ok(true),
            Some(entry) => match &entry.kind {
                Kind::Fields(fields) => {
                    has_each_field(alloc, names, *head, args.as_slice(), fields.len(), term)
                }
                Kind::Abstract => Ok(true),
                Kind::Choices(_) => Ok(true),
            },
        },
        _ => Ok(true),
    }
}

/// Whether the fields of a term are among these.
fn has_fields(
    alloc: Global,
    signature: &Signature,
    names: &[Term],
    term: &Term,
) -> Result<bool, AllocError>
    ensures { IfOk result (λ b. b ≡ list_all (spec.stands_in names.now) (spec.fields_of signature.now term.now)) }
{
    match sort_of(alloc, signature, term)? {
        None => Ok(true),
        Some(sort) => has_fields_by(alloc, signature, names, &sort, term),
    }
}

/// Whether a name is closed, or a predicate's application, and its arguments and fields are among the names.
fn is_entry(
    alloc: Global,
    signature: &Signature,
    names: &[Term],
    term: &Term,
) -> Result<bool, AllocError>
    ensures { IfOk result (λ b. b ≡ spec.is_entry signature.now names.now term.now) }
{
    if !trigger_ok(alloc, signature, term, &[])? {
        return Ok(false);
    }
    if !has_args(names, term) {
        return Ok(false);
    }
    has_fields(alloc, signature, names, term)
}

/// Whether each name is.
fn are_entries(alloc: Global, signature: &Signature, names: &[Term]) -> Result<bool, AllocError>
    ensures { IfOk result (λ b. b ≡ list_all (spec.is_entry signature.now names.now) names.now) }
{
    for name in names {
        if !is_entry(alloc, signature, names, name)? {
            return Ok(false);
        }
    }
    Ok(true)
}

/// Whether the terms of a system are closed, all different, and stand with their subterms and fields, each with a value: the first
/// clause of a completed system. Quadratic in the number of names.
#[tactic(auto, using(crate::proofs::NameTests::terms_hold, crate::proofs::NameTests::terms_apart, crate::proofs::NameTests::terms_entries))]
pub fn has_terms(alloc: Global, signature: &Signature, system: &System) -> Result<bool, AllocError>
    ensures { IfOk result (λ b. (b ≡ true) ↔ HasTerms signature.now system.now) }
{
    let names = system.names.as_slice();
    if system.values.len() != names.len() {
        return Ok(false);
    }
    if !are_apart(names) {
        return Ok(false);
    }
    are_entries(alloc, signature, names)
}
