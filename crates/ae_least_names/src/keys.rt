//! Numbers of names, by their values: names that are alike have the same.
ghost use Rattle.std.specs.Prelude.{◌≡◌, ◌<◌, ◌-◌, length, slice_get};
ghost use Rattle.ae_value_table.specs.Table.{number_at, value_in};
ghost use Rattle.ae_least_names.specs.Keys as spec;

use ae_num::forms::{Lin, Name, Part};
use ae_value_table::{Pattern, Values};

/// The low bits of a number's size.
fn low(number: i128) -> usize
    ensures low { result ≡ spec.low number }
    ensures below { result < 65536 }
{
    (number.unsigned_abs() % 65_536) as usize
}

/// The number of a part.
fn part_key(part: &Part) -> usize
    ensures key { result ≡ spec.part_key part.now }
    ensures below { result < 8388608 }
{
    part.key % 65_536 + low(part.factor) * 127
}

/// The number of the first part.
fn first_key(parts: &[Part]) -> usize
    ensures key { result ≡ spec.key_of_part (slice_get parts.now 0) }
    ensures below { result < 8388608 }
{
    match parts.first() {
        None => 0,
        Some(part) => part_key(part),
    }
}

/// The number of the last part.
fn last_key(parts: &[Part]) -> usize
    ensures key { result ≡ spec.key_of_part (slice_get parts.now (length parts.now - 1)) }
    ensures below { result < 8388608 }
{
    match parts.last() {
        None => 0,
        Some(part) => part_key(part),
    }
}

/// The number of a form, by its constant and its first and last part.
fn form_key(form: &Lin) -> usize
    ensures { result ≡ spec.form_key form.now }
{
    let parts = form.parts.as_slice();
    first_key(parts) + last_key(parts) * 31 + low(form.constant) * 1013
}

/// The number of the number of a name.
fn number_key(values: &Values, name: Name) -> usize
    ensures { result ≡ spec.form_key (number_at values.now name) }
{
    match values.row(name) {
        Some(row) => form_key(&row.value),
        None => (name % 65_536 + 127) * 32,
    }
}

/// The number of the value of a pattern.
#[tactic(auto, using(crate::proofs::KeyLaws::key_rules))]
fn pattern_key(values: &Values, pattern: &Pattern) -> usize
    ensures { result ≡ spec.value_key (value_in values.now pattern.now) }
{
    match pattern {
        Pattern::Number(name) => number_key(values, *name),
        Pattern::Leaf(name) => values.leaf(*name) % 65_536,
        Pattern::Fields { fields, .. } => {
            let fields = fields.as_slice();
            if fields.is_empty() {
                return 0;
            }
            pattern_key(values, &fields[0])
        }
    }
}

/// The number of a name that has a value.
pub(crate) fn key(values: &Values, name: Name) -> usize
    requires { name < values.now.taken }
    ensures { result ≡ spec.key values.now name }
{
    let _within = values.len();
    pattern_key(values, &values.entry(name).pattern)
}
