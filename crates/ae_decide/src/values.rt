//! Written values, compared as they are written, and the values of terms.
ghost use Rattle.std.specs.Prelude.{◌≡◌, ◌↔◌, IsTrue, Some, None, IfSome, IfNone};
ghost use Rattle.ae_base.specs.Decided.{decided};
ghost use Rattle.ae_decide.specs.Values as spec;

use crate::names::is_term;
use ae_core::terms::Term;
use ae_journal::systems::System;
use ae_num::copies::same_form;
use ae_num::forms::Value;

/// Whether two values are the same.
#[cycle(same_value)]
pub fn same_value(left: &Value, right: &Value) -> bool
    ensures { IsTrue result ↔ (left.now ≡ right.now) }
{
    match (left, right) {
        (Value::Leaf(a), Value::Leaf(b)) => a == b,
        (Value::Number(a), Value::Number(b)) => same_form(a, b),
        (Value::Fields(a), Value::Fields(b)) => same_values(a.as_slice(), b.as_slice()),
        _ => false,
    }
}

/// Whether two lists of values are the same.
#[cycle(same_value)]
pub fn same_values(left: &[Value], right: &[Value]) -> bool
    ensures { IsTrue result ↔ (left.now ≡ right.now) }
{
    if left.len() != right.len() {
        return false;
    }
    for i in 0..left.len() {
        if !same_value(&left[i], &right[i]) {
            return false;
        }
    }
    true
}

/// Whether two values are the same, as the definitions say it.
pub fn is_value(left: &Value, right: &Value) -> bool
    ensures { result ≡ decided (spec.Value_discrete left.now right.now) }
{
    same_value(left, right)
}

/// The first place of a term, if it is one of these.
#[tactic(auto, using(crate::proofs::ValueTests::place_step))]
pub fn place_of(terms: &[Term], wanted: &Term) -> Option<usize>
    ensures { result ≡ spec.place_from 0 terms.now wanted.now }
{
    for i in 0..terms.len() {
        if is_term(&terms[i], wanted) {
            return Some(i);
        }
    }
    None
}

/// The value written for a term, if it is a name.
pub fn value_of<'a>(system: &'a System, term: &Term) -> Option<&'a Value>
    ensures some { IfSome result (λ v. spec.value_of system.now term.now ≡ Some v.now) }
    ensures none { IfNone result (spec.value_of system.now term.now ≡ None) }
{
    match place_of(system.names.as_slice(), term) {
        None => None,
        Some(place) => system.values.get(place),
    }
}

/// Whether two terms have one written value.
pub fn are_alike(system: &System, left: &Term, right: &Term) -> bool
    ensures { result ≡ spec.are_alike system.now left.now right.now }
{
    match (value_of(system, left), value_of(system, right)) {
        (Some(v), Some(w)) => is_value(v, w),
        _ => false,
    }
}

/// Whether each two terms at one place have one written value.
#[tactic(auto, using(crate::proofs::ValueTests::alike_step, crate::proofs::ValueTests::alike_lengths))]
pub fn all_alike(system: &System, left: &[Term], right: &[Term]) -> bool
    ensures { result ≡ spec.all_alike system.now left.now right.now }
{
    if left.len() != right.len() {
        return false;
    }
    for i in 0..left.len() {
        if !are_alike(system, &left[i], &right[i]) {
            return false;
        }
    }
    true
}
