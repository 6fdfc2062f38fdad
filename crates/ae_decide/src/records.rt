//! The values of records: whether each has the values of its fields, and each field of a written record that of its argument.
ghost use Rattle.std.specs.Prelude.{◌≡◌, ◌↔◌, ◌&&◌, true, Some, None, IfOk, IfSome, IfNone};
ghost use Rattle.std.specs.List.{list_all};
ghost use Rattle.ae_core.specs.declared.terms.Term.{out-Term};
ghost use Rattle.ae_rules.specs.Lines.{fields_from};
ghost use Rattle.ae_decide.specs.Clauses.{HasTerms, HasLeaves, HasRecords};
ghost use Rattle.ae_decide.specs.Records as spec;
ghost use Rattle.ae_decide.specs.Values as value_spec;

use crate::names::field_of;
use crate::values::{are_alike, is_value, value_of};
use ae_core::lists::List;
use ae_core::problems::{Kind, Signature};
use ae_core::sorts::{are_sorts, sort_of};
use ae_core::terms::{Head, Sort, Term};
use ae_journal::systems::System;
use ae_num::forms::Value;
use std::alloc::{AllocError, Global};

/// Whether this value is written for a term.
fn is_written(system: &System, term: &Term, value: &Value) -> bool
    ensures { result ≡ value_spec.same_known (value_spec.value_of system.now term.now) (Some value.now) }
{
    match value_of(system, term) {
        None => false,
        Some(own) => is_value(own, value),
    }
}

/// Whether each of these values is written for the term at its place.
#[tactic(auto, using(crate::proofs::RecordTests::written_step, crate::proofs::RecordTests::written_lengths))]
fn are_written(system: &System, terms: &[Term], values: &[Value]) -> bool
    ensures { result ≡ spec.are_written system.now terms.now values.now }
{
    if terms.len() != values.len() {
        return false;
    }
    for i in 0..terms.len() {
        if !is_written(system, &terms[i], &values[i]) {
            return false;
        }
    }
    true
}

/// Whether the value of a term is that of a record with these fields.
fn is_record(system: &System, fields: &[Term], term: &Term) -> bool
    ensures { result ≡ spec.is_record system.now fields.now (value_spec.value_of system.now term.now) }
{
    match value_of(system, term) {
        None => false,
        Some(Value::Fields(values)) => are_written(system, fields, values.as_slice()),
        Some(_) => false,
    }
}

/// The fields of a record.
#[tactic(auto, using(crate::proofs::NameTests::fields_push))]
fn field_terms(
    alloc: Global,
    of: usize,
    sorts: &[Sort],
    count: usize,
    term: &Term,
) -> Result<List<Term>, AllocError>
    ensures { IfOk result (λ ts. ts ≡ fields_from of sorts.now term.now 0 count) }
{
    let mut terms = List::new(alloc);
    for place in 0..count {
        terms.push(field_of(alloc, of, place, sorts, term)?)?;
    }
    Ok(terms)
}

/// The fields of a term of this sort; `None` where the sort is no record's.
fn fields_at(
    alloc: Global,
    signature: &Signature,
    term: &Term,
    sort: &Sort,
) -> Result<Option<List<Term>>, AllocError>
    ensures { IfOk result (λ o. o ≡ spec.fields_at signature.now term.now sort.now) }
{
    match sort {
        Sort::Named { head, args } => match signature.types.get(*head) {
            None => Ok(None),
            Some(entry) => match &entry.kind {
                Kind::Fields(fields) => {
                    let terms = field_terms(alloc, *head, args.as_slice(), fields.len(), term)?;
                    Ok(Some(terms))
                }
                Kind::Abstract => Ok(None),
                Kind::Choices(_) => Ok(None),
            },
        },
        _ => Ok(None),
    }
}

/// The fields of a term; `None` where its sort is no record's.
fn fields_of(
    alloc: Global,
    signature: &Signature,
    term: &Term,
) -> Result<Option<List<Term>>, AllocError>
    ensures { IfOk result (λ o. o ≡ spec.fields_of signature.now term.now) }
{
    match sort_of(alloc, signature, term)? {
        None => Ok(None),
        Some(sort) => fields_at(alloc, signature, term, &sort),
    }
}

/// Whether a name has the values of its fields, if it is a record.
fn has_fields(
    alloc: Global,
    signature: &Signature,
    system: &System,
    term: &Term,
) -> Result<bool, AllocError>
    ensures { IfOk result (λ b. b ≡ spec.has_fields signature.now system.now term.now) }
{
    match fields_of(alloc, signature, term)? {
        None => Ok(true),
        Some(fields) => Ok(is_record(system, fields.as_slice(), term)),
    }
}

/// The argument at a place of a written record of this type and these sorts.
fn argument_at<'a>(of: usize, place: usize, sorts: &[Sort], built: &'a Term) -> Option<&'a Term>
    ensures some { IfSome result (λ t. spec.argument_at of place sorts.now (out-Term built.now) ≡ Some t.now) }
    ensures none { IfNone result (spec.argument_at of place sorts.now (out-Term built.now) ≡ None) }
{
    match built {
        Term::Apply {
            head: Head::Build(own),
            sorts: own_sorts,
            args,
        } => {
            if *own == of && are_sorts(own_sorts.as_slice(), sorts) {
                args.get(place)
            } else {
                None
            }
        }
        _ => None,
    }
}

/// What a field takes out of a written record.
fn taken<'a>(term: &'a Term) -> Option<&'a Term>
    ensures some { IfSome result (λ t. spec.taken term.now ≡ Some t.now) }
    ensures none { IfNone result (spec.taken term.now ≡ None) }
{
    match term {
        Term::Apply {
            head: Head::Field { of, place },
            sorts,
            args,
        } => match args.as_slice() {
            [built] => argument_at(*of, *place, sorts.as_slice(), built),
            _ => None,
        },
        _ => None,
    }
}

/// Whether a name has the value of what it takes out of a written record, if it takes out something.
fn has_taken(system: &System, term: &Term) -> bool
    ensures { result ≡ spec.has_taken system.now term.now }
{
    match taken(term) {
        None => true,
        Some(argument) => are_alike(system, term, argument),
    }
}

/// Whether each name has the values of its fields, and that of what it takes out.
fn all_records(alloc: Global, signature: &Signature, system: &System) -> Result<bool, AllocError>
    ensures { IfOk result (λ b. b ≡ spec.all_records signature.now system.now) }
{
    let names = system.names.as_slice();
    for name in names {
        if !has_fields(alloc, signature, system, name)? || !has_taken(system, name) {
            return Ok(false);
        }
    }
    Ok(true)
}

/// Whether each record has the values of its fields, and each field of a written record that of its argument: the fourth clause of a
/// completed system.
#[tactic(auto, using(crate::proofs::RecordTests::records_tested))]
pub fn has_records(
    alloc: Global,
    signature: &Signature,
    system: &System,
) -> Result<bool, AllocError>
    requires terms { HasTerms signature.now system.now }
    requires leaves { HasLeaves signature.now system.now }
    ensures { IfOk result (λ b. (b ≡ true) ↔ HasRecords signature.now system.now) }
{
    all_records(alloc, signature, system)
}
