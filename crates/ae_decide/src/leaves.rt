//! The values of names: whether they are in the normal form, over leaves, and of the shape that the sort asks for.
ghost use Rattle.std.specs.Prelude.{◌≡◌, ◌↔◌, true, ◌<◌, ◌<ℤ◌, ◌^◌, pos, [], ◌∷◌, IsTrue, IfOk, map, Some, IfSome, IfNone, None};
ghost use Rattle.std.specs.List.{list_all, AllByRecursion};
ghost use Rattle.ae_base.specs.Decided.{decided};
ghost use Rattle.ae_core.specs.Sorts as sorts_spec;
ghost use Rattle.ae_journal.specs.Systems.{record_fields};
ghost use Rattle.ae_num.specs.Forms.{IsNormal, IsCommonDivisor, sizes};
ghost use Rattle.ae_decide.specs.Clauses.{HasTerms, HasLeaves};
ghost use Rattle.ae_decide.specs.Leaves as spec;
ghost use Rattle.ae_decide.specs.Values as value_spec;

use crate::values::{is_value, place_of, value_of};
use ae_core::lists::List;
use ae_core::problems::{Kind, Signature};
use ae_core::sorts::{
    fields_sorts, is_numeric, is_sort, is_within, predicate_ok, sort_of, sorts_in,
};
use ae_core::terms::{Head, Sort, Term};
use ae_journal::systems::System;
use ae_num::forms::{Lin, Name, Part, Value, single};
use ae_num::reduction::common_divisor;
use std::alloc::{AllocError, Global};

/// Whether the factors of some parts are within the limits and not 0.
fn have_factors(parts: &[Part]) -> bool
    ensures { result ≡ list_all spec.has_factor parts.now }
{
    for part in parts {
        if !is_within(part.factor) || part.factor == 0 {
            return false;
        }
    }
    true
}

/// Whether a name is below each key.
fn is_below(name: Name, parts: &[Part]) -> bool
    ensures { result ≡ list_all (spec.is_after name) parts.now }
{
    for part in parts {
        if part.key <= name {
            return false;
        }
    }
    true
}

/// Whether the keys rise.
#[tactic(auto, using(crate::proofs::LeafTests::rising_step))]
fn are_rising(parts: &[Part]) -> bool
    ensures { result ≡ spec.are_rising parts.now }
{
    for i in 0..parts.len() {
        if !is_below(parts[i].key, &parts[i + 1..]) {
            return false;
        }
    }
    true
}

/// Whether a form meets what is asked of its numbers each by itself.
fn is_proper(form: &Lin) -> bool
    ensures { result ≡ spec.is_proper form.now }
{
    0 < form.den
        && is_within(form.den)
        && is_within(form.constant)
        && have_factors(form.parts.as_slice())
        && are_rising(form.parts.as_slice())
}

/// Whether no number but 1 divides all numbers of a form.
fn is_lowest(form: &Lin) -> bool
    requires positive { pos 0 <ℤ form.now.den }
    requires within { AllByRecursion (λ n. n < 2 ^ 127) (sizes form.now.den form.now.parts form.now.constant) }
    ensures { (result ≡ true) ↔ IsCommonDivisor (sizes form.now.den form.now.parts form.now.constant) 1 }
{
    common_divisor(form).unsigned_abs() == 1
}

/// Whether a form is in the normal form.
#[tactic(auto, using(crate::proofs::LeafTests::proper_within, crate::proofs::LeafTests::proper_positive, crate::proofs::LeafTests::not_proper))]
fn is_normal(form: &Lin) -> bool
    ensures { result ≡ spec.is_normal form.now }
{
    if !is_proper(form) {
        return false;
    }
    is_lowest(form)
}

/// Whether each form in a value is in the normal form.
#[cycle(normal)]
#[tactic(auto, using(crate::proofs::LeafTests::normal_rules))]
fn is_normal_value(value: &Value) -> bool
    ensures { result ≡ spec.is_normal_value value.now }
{
    match value {
        Value::Leaf(_) => true,
        Value::Number(form) => is_normal(form),
        Value::Fields(values) => are_normal_values(values.as_slice()),
    }
}

/// Whether each form in some values is in the normal form.
#[cycle(normal)]
#[tactic(auto, using(crate::proofs::LeafTests::normal_rules))]
fn are_normal_values(values: &[Value]) -> bool
    ensures { result ≡ list_all spec.is_normal_value values.now }
{
    for value in values {
        if !is_normal_value(value) {
            return false;
        }
    }
    true
}

/// A name as its own value.
fn own_value(alloc: Global, sort: &Sort, name: Name) -> Result<Value, AllocError>
    ensures { IfOk result (λ v. v ≡ spec.written_own sort.now name) }
{
    if is_numeric(sort) {
        Ok(Value::Number(single(alloc, name)?))
    } else {
        Ok(Value::Leaf(name))
    }
}

/// Whether a term has this sort.
pub fn is_of_sort(
    alloc: Global,
    signature: &Signature,
    term: &Term,
    sort: &Sort,
) -> Result<bool, AllocError>
    ensures { IfOk result (λ b. b ≡ spec.is_of_sort (sorts_spec.sort_of signature.now term.now) sort.now) }
{
    match sort_of(alloc, signature, term)? {
        None => Ok(false),
        Some(own) => Ok(is_sort(&own, sort)),
    }
}

/// Whether a name is its own value, and of this sort.
fn is_leaf(
    alloc: Global,
    signature: &Signature,
    system: &System,
    sort: &Sort,
    name: Name,
) -> Result<bool, AllocError>
    ensures { IfOk result (λ b. b ≡ spec.is_leaf signature.now system.now sort.now name) }
{
    let Some(term) = system.names.get(name) else {
        return Ok(false);
    };
    let Some(value) = system.values.get(name) else {
        return Ok(false);
    };
    if !is_of_sort(alloc, signature, term, sort)? {
        return Ok(false);
    }
    let own = own_value(alloc, sort, name)?;
    Ok(is_value(value, &own))
}

/// Whether the keys of some parts are leaves of this sort.
fn are_leaves(
    alloc: Global,
    signature: &Signature,
    system: &System,
    sort: &Sort,
    parts: &[Part],
) -> Result<bool, AllocError>
    ensures { IfOk result (λ b. b ≡ list_all (λ p. spec.is_leaf signature.now system.now sort.now p.key) parts.now) }
{
    for part in parts {
        if !is_leaf(alloc, signature, system, sort, part.key)? {
            return Ok(false);
        }
    }
    Ok(true)
}

/// The sorts of the fields, for a record sort.
fn record_sorts(
    alloc: Global,
    signature: &Signature,
    sort: &Sort,
) -> Result<Option<List<Sort>>, AllocError>
    ensures { IfOk result (λ o. o ≡ record_fields signature.now sort.now) }
{
    match sort {
        Sort::Named { head, args } => match signature.types.get(*head) {
            None => Ok(None),
            Some(entry) => match &entry.kind {
                Kind::Fields(fields) => {
                    let sorts = fields_sorts(alloc, fields.as_slice(), args.as_slice())?;
                    Ok(Some(sorts))
                }
                Kind::Abstract => Ok(None),
                Kind::Choices(_) => Ok(None),
            },
        },
        _ => Ok(None),
    }
}

/// Whether a leaf may be the value of a name of this sort.
fn is_leaf_over(
    alloc: Global,
    signature: &Signature,
    system: &System,
    sort: &Sort,
    name: Name,
) -> Result<bool, AllocError>
    ensures { IfOk result (λ b. b ≡ spec.is_leaf_over signature.now system.now sort.now name) }
{
    if is_numeric(sort) {
        return Ok(false);
    }
    match record_sorts(alloc, signature, sort)? {
        Some(_sorts) => Ok(false),
        None => is_leaf(alloc, signature, system, sort, name),
    }
}

/// Whether a value is over leaves, of the shape that the sort asks for.
#[cycle(over)]
#[tactic(auto, using(crate::proofs::LeafTests::over_rules, crate::proofs::LeafTests::over_loop, crate::proofs::LeafTests::over_lengths))]
fn is_over(
    alloc: Global,
    signature: &Signature,
    system: &System,
    value: &Value,
    sort: &Sort,
) -> Result<bool, AllocError>
    ensures { IfOk result (λ b. b ≡ spec.is_over signature.now system.now value.now sort.now) }
{
    match value {
        Value::Leaf(name) => is_leaf_over(alloc, signature, system, sort, *name),
        Value::Number(form) => {
            if !is_numeric(sort) {
                return Ok(false);
            }
            are_leaves(alloc, signature, system, sort, form.parts.as_slice())
        }
        Value::Fields(values) => match record_sorts(alloc, signature, sort)? {
            None => Ok(false),
            Some(sorts) => {
                are_over(
                    alloc,
                    signature,
                    system,
                    values.as_slice(),
                    sorts.as_slice(),
                )
            }
        },
    }
}

/// Whether each value is over leaves, of the shape that the sort at its place asks for.
#[cycle(over)]
#[tactic(auto, using(crate::proofs::LeafTests::over_rules, crate::proofs::LeafTests::over_loop, crate::proofs::LeafTests::over_lengths))]
fn are_over(
    alloc: Global,
    signature: &Signature,
    system: &System,
    values: &[Value],
    sorts: &[Sort],
) -> Result<bool, AllocError>
    ensures { IfOk result (λ b. b ≡ spec.all_over (map (spec.is_over signature.now system.now) values.now) sorts.now) }
{
    if values.len() != sorts.len() {
        return Ok(false);
    }
    for i in 0..values.len() {
        if !is_over(alloc, signature, system, &values[i], &sorts[i])? {
            return Ok(false);
        }
    }
    Ok(true)
}

/// Whether the value of a term is over leaves, if the term has a value and a sort.
fn is_over_if(
    alloc: Global,
    signature: &Signature,
    system: &System,
    term: &Term,
) -> Result<bool, AllocError>
    ensures { IfOk result (λ b. b ≡ spec.is_over_if signature.now system.now (value_spec.value_of system.now term.now) (sorts_spec.sort_of signature.now term.now)) }
{
    let Some(value) = value_of(system, term) else {
        return Ok(true);
    };
    match sort_of(alloc, signature, term)? {
        None => Ok(true),
        Some(sort) => is_over(alloc, signature, system, value, &sort),
    }
}

/// Whether a term is a predicate's application.
fn is_predicate(alloc: Global, signature: &Signature, term: &Term) -> Result<bool, AllocError>
    ensures { IfOk result (λ b. b ≡ spec.is_predicate signature.now term.now) }
{
    match term {
        Term::Apply {
            head: Head::Symbol(symbol),
            sorts,
            args,
        } => {
            let found = sorts_in(alloc, signature, args.as_slice(), &[])?;
            predicate_ok(alloc, signature, *symbol, sorts.as_slice(), &found)
        }
        _ => Ok(false),
    }
}

/// Whether a term is a name whose value is the leaf of that name.
fn has_own_leaf(system: &System, term: &Term) -> bool
    ensures { result ≡ spec.has_own_leaf system.now (value_spec.place_from 0 system.now.names term.now) }
{
    match place_of(system.names.as_slice(), term) {
        None => false,
        Some(place) => match system.values.get(place) {
            Some(Value::Leaf(name)) => *name == place,
            _ => false,
        },
    }
}

/// Whether a name has the value that its sort asks for, or, as a predicate's application, its own leaf.
fn has_value(
    alloc: Global,
    signature: &Signature,
    system: &System,
    term: &Term,
) -> Result<bool, AllocError>
    ensures { IfOk result (λ b. b ≡ spec.has_value signature.now system.now term.now) }
{
    if !is_over_if(alloc, signature, system, term)? {
        return Ok(false);
    }
    if is_predicate(alloc, signature, term)? {
        return Ok(has_own_leaf(system, term));
    }
    Ok(true)
}

/// Whether each name has.
fn have_values(alloc: Global, signature: &Signature, system: &System) -> Result<bool, AllocError>
    ensures { IfOk result (λ b. b ≡ list_all (spec.has_value signature.now system.now) system.now.names) }
{
    let names = system.names.as_slice();
    for name in names {
        if !has_value(alloc, signature, system, name)? {
            return Ok(false);
        }
    }
    Ok(true)
}

/// Whether the values are in the normal form, over leaves that are names of the value's sort and have themselves as values, and of the
/// shape that the sort asks for; a predicate's application is its own leaf. The second clause of a completed system.
pub fn has_leaves(alloc: Global, signature: &Signature, system: &System) -> Result<bool, AllocError>
    requires terms { HasTerms signature.now system.now }
    ensures { IfOk result (λ b. (b ≡ true) ↔ HasLeaves signature.now system.now) }
{
    all_have_values(alloc, signature, system)
}

/// Whether the values are in the normal form, and each name has the value that is asked for.
fn all_have_values(
    alloc: Global,
    signature: &Signature,
    system: &System,
) -> Result<bool, AllocError>
    ensures { IfOk result (λ b. b ≡ spec.all_have_values signature.now system.now) }
{
    if !are_normal_values(system.values.as_slice()) {
        return Ok(false);
    }
    have_values(alloc, signature, system)
}
