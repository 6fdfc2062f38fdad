//! Values of names.
ghost use Rattle.std.specs.Prelude.{◌≡◌, true};
ghost use Rattle.std.specs.List.{list_all};
ghost use Rattle.ae_counts.specs.Inner.Counted as spec;

use crate::numbers::number_counts;
use ae_num::forms::{Lin, Name, Part, Value};

// The name of a part has 64 bits.
fn name_counts(part: Part)
    ensures { spec.name_counts part ≡ true }
{
    number_counts(part.key);
}

fn names_count(parts: &[Part])
    ensures { list_all spec.name_counts parts.now ≡ true }
{
    for part in parts {
        name_counts(*part);
    }
}

// The names of a form have.
pub(crate) fn form_counts(form: &Lin)
    ensures { spec.form_counts form.now ≡ true }
{
    names_count(form.parts.as_slice());
}

// The names in a value have.
#[cycle(values)]
#[tactic(auto, using(crate::proofs::ValueRules::value_rules))]
pub(crate) fn value_counts(value: &Value)
    ensures { spec.value_counts value.now ≡ true }
{
    match value {
        Value::Leaf(name) => number_counts(*name),
        Value::Number(form) => form_counts(form),
        Value::Fields(values) => values_count(values.as_slice()),
    }
}

#[cycle(values)]
#[tactic(auto, using(crate::proofs::ValueRules::value_rules))]
pub(crate) fn values_count(values: &[Value])
    ensures { list_all spec.value_counts values.now ≡ true }
{
    for value in values {
        value_counts(value);
    }
}

// A name has, where there is one.
pub(crate) fn key_counts(key: Option<Name>)
    ensures { spec.key_counts key ≡ true }
{
    match key {
        None => {}
        Some(name) => number_counts(name),
    }
}
