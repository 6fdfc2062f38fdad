//! The names of a state, one by one: constructors, enumerations and integers.
ghost use Rattle.std.specs.Prelude.{◌≡◌, [], map, IfOk};
ghost use Rattle.std.specs.List.{list_all, list_any};
ghost use Rattle.ae_base.specs.Decided.{decided};
ghost use Rattle.ae_core.specs.declared.terms.Head.TheVariants.{Symbol};
ghost use Rattle.ae_core.specs.declared.terms.Sort.{out-Sort};
ghost use Rattle.ae_core.specs.declared.terms.Sort.TheOpen.{Named};
ghost use Rattle.ae_core.specs.declared.terms.Term.{Apply};
ghost use Rattle.ae_rules.specs.Instances as instances;
ghost use Rattle.ae_num.specs.Forms.{IsNormal};
ghost use Rattle.ae_num.specs.declared.forms.Value.{out-Value};
ghost use Rattle.ae_journal.specs.Systems.{IsNormalValue};
ghost use Rattle.ae_system_checks.proofs.WholeValues.{decide_whole};
ghost use Rattle.ae_decide.specs.Clauses.{HasLeaves};
ghost use Rattle.ae_decide.specs.Values as values;
ghost use Rattle.ae_saturated.specs.Names as spec;

use ae_core::lists::List;
use ae_core::problems::{Kind, Nature, Signature};
use ae_core::sorts::{is_sort, sort_of};
use ae_core::terms::{Head, Sort, Term};
use ae_decide::names::is_head;
use ae_decide::values::{are_alike, value_of};
use ae_journal::systems::System;
use ae_num::forms::{Lin, Value};
use ae_system_checks::whole::is_whole;
use std::alloc::{AllocError, Global};

/// Whether a head is a constructor.
fn is_constructor(signature: &Signature, head: Head) -> bool
    ensures { result ≡ spec.is_constructor signature.now head }
{
    match head {
        Head::Symbol(symbol) => match signature.symbols.get(symbol) {
            None => false,
            Some(entry) => match entry.nature {
                Nature::Choice { .. } => true,
                Nature::Free => false,
                Nature::Ac => false,
            },
        },
        Head::True => true,
        Head::False => true,
        Head::Void => true,
        _ => false,
    }
}

/// The constructor that a term is.
fn constructor_of(signature: &Signature, term: &Term) -> Option<Head>
    ensures { result ≡ spec.constructor_of signature.now term.now }
{
    match term {
        Term::Apply { head, sorts, args } => {
            if sorts.is_empty() && args.is_empty() && is_constructor(signature, *head) {
                Some(*head)
            } else {
                None
            }
        }
        _ => None,
    }
}

/// Whether two names of one value aren't two constructors.
fn are_apart(signature: &Signature, system: &System, left: &Term, right: &Term) -> bool
    ensures { result ≡ spec.are_apart signature.now system.now left.now right.now }
{
    match (
        constructor_of(signature, left),
        constructor_of(signature, right),
    ) {
        (Some(first), Some(second)) => { is_head(first, second) || !are_alike(system, left, right) }
        _ => true,
    }
}

/// Whether a name isn't of one value with another constructor, if it is one.
fn is_apart(signature: &Signature, system: &System, name: &Term) -> bool
    ensures { result ≡ list_all (spec.are_apart signature.now system.now name.now) system.now.names }
{
    let names = system.names.as_slice();
    for other in names {
        if !are_apart(signature, system, name, other) {
            return false;
        }
    }
    true
}

/// Heads of symbols.
fn symbols(alloc: Global, numbers: &[usize]) -> Result<List<Head>, AllocError>
    ensures { IfOk result (λ hs. hs ≡ map Symbol numbers.now) }
{
    let mut heads = List::new(alloc);
    for number in numbers {
        heads.push(Head::Symbol(*number))?;
    }
    Ok(heads)
}

/// The constructors of the type of this number, where it is an enumeration.
fn named_choices(
    alloc: Global,
    signature: &Signature,
    head: usize,
) -> Result<Option<List<Head>>, AllocError>
    ensures { IfOk result (λ hs. hs ≡ instances.choices_of signature.now (Named head [])) }
{
    match signature.types.get(head) {
        None => Ok(None),
        Some(entry) => match &entry.kind {
            Kind::Abstract => Ok(None),
            Kind::Fields(_) => Ok(None),
            Kind::Choices(numbers) => Ok(Some(symbols(alloc, numbers.as_slice())?)),
        },
    }
}

/// The constructors of a sort, in their order, where it is an enumeration.
fn choices_of(
    alloc: Global,
    signature: &Signature,
    sort: &Sort,
) -> Result<Option<List<Head>>, AllocError>
    ensures { IfOk result (λ hs. hs ≡ instances.choices_of signature.now (out-Sort sort.now)) }
{
    match sort {
        Sort::Named { head, .. } => named_choices(alloc, signature, *head),
        Sort::Bool => {
            let mut heads = List::new(alloc);
            heads.push(Head::True)?;
            heads.push(Head::False)?;
            Ok(Some(heads))
        }
        Sort::Unit => {
            let mut heads = List::new(alloc);
            heads.push(Head::Void)?;
            Ok(Some(heads))
        }
        _ => Ok(None),
    }
}

/// Whether a term has the value of one of some constants.
fn is_one_of(
    alloc: Global,
    system: &System,
    term: &Term,
    heads: &[Head],
) -> Result<bool, AllocError>
    ensures { IfOk result (λ b. b ≡ list_any (λ h. values.are_alike system.now (Apply h [] []) term.now) heads.now) }
{
    for head in heads {
        let constant = Term::Apply {
            head: *head,
            sorts: List::new(alloc),
            args: List::new(alloc),
        };
        if are_alike(system, &constant, term) {
            return Ok(true);
        }
    }
    Ok(false)
}

/// Whether a name has the value of a constructor, if it is of an enumeration.
fn is_exhausted(
    alloc: Global,
    signature: &Signature,
    system: &System,
    name: &Term,
) -> Result<bool, AllocError>
    ensures { IfOk result (λ b. b ≡ spec.is_exhausted signature.now system.now name.now) }
{
    let Some(sort) = sort_of(alloc, signature, name)? else {
        return Ok(true);
    };
    match choices_of(alloc, signature, &sort)? {
        None => Ok(true),
        Some(heads) => is_one_of(alloc, system, name, heads.as_slice()),
    }
}

/// Whether no number but 1 divides the denominator and each factor of a value, as the definitions say it.
fn is_whole_form(form: &Lin) -> bool
    requires normal { IsNormal form.now }
    ensures { result ≡ decided (decide_whole form.now) }
{
    is_whole(form)
}

/// Whether a value is whole, if it is a number.
#[tactic(auto, using(crate::proofs::NameTests::normal_number))]
fn is_whole_value(value: &Value) -> bool
    requires normal { IsNormalValue value.now }
    ensures { result ≡ spec.is_whole_by (out-Value value.now) }
{
    match value {
        Value::Number(form) => is_whole_form(form),
        Value::Leaf(_) => true,
        Value::Fields(_) => true,
    }
}

/// Whether the value of a name of integers is whole.
#[tactic(auto, using(crate::proofs::NameTests::normal_value))]
fn has_whole(
    alloc: Global,
    signature: &Signature,
    system: &System,
    name: &Term,
) -> Result<bool, AllocError>
    requires leaves { HasLeaves signature.now system.now }
    ensures { IfOk result (λ b. b ≡ spec.has_whole signature.now system.now name.now) }
{
    let Some(sort) = sort_of(alloc, signature, name)? else {
        return Ok(true);
    };
    if !is_sort(&sort, &Sort::Int) {
        return Ok(true);
    }
    match value_of(system, name) {
        Some(value) => Ok(is_whole_value(value)),
        None => Ok(true),
    }
}

/// Whether a name fits the others.
fn name_fits(
    alloc: Global,
    signature: &Signature,
    system: &System,
    name: &Term,
) -> Result<bool, AllocError>
    requires leaves { HasLeaves signature.now system.now }
    ensures { IfOk result (λ b. b ≡ spec.name_fits signature.now system.now name.now) }
{
    if !is_apart(signature, system, name) {
        return Ok(false);
    }
    if !is_exhausted(alloc, signature, system, name)? {
        return Ok(false);
    }
    has_whole(alloc, signature, system, name)
}

/// Whether each name does: two constructors of one value are one, a name of an enumeration has the value of a constructor, and that of a
/// name of integers is whole.
pub fn names_fit(alloc: Global, signature: &Signature, system: &System) -> Result<bool, AllocError>
    requires leaves { HasLeaves signature.now system.now }
    ensures { IfOk result (λ b. b ≡ spec.names_fit signature.now system.now) }
{
    let names = system.names.as_slice();
    for name in names {
        if !name_fits(alloc, signature, system, name)? {
            return Ok(false);
        }
    }
    Ok(true)
}
