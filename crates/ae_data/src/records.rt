//! Equations between values of records.
ghost use Rattle.std.specs.Prelude.{◌≡◌, IfOk, length, map};
ghost use Rattle.ae_num.specs.declared.forms.Value.{Fields};
ghost use Rattle.ae_data.specs.Records as spec;
ghost use Rattle.ae_data.specs.Records.{AreRecords, lefts, rights};

use crate::copies::copy_value;
use ae_core::lists::List;
use ae_num::forms::Value;
use std::alloc::{AllocError, Global};

/// Two values that an equation says are equal.
#[derive(Debug, Drop)]
pub struct ValuePair {
    pub left: Value,
    pub right: Value,
}

/// The values of a record's fields; none where the value isn't a record's.
#[tactic(auto, using(crate::proofs::RecordLaws::fields_listed, crate::proofs::RecordLaws::fields_leaf, crate::proofs::RecordLaws::fields_number))]
fn fields(value: &Value) -> &[Value]
    ensures { result.now ≡ spec.fields value.now }
{
    match value {
        Value::Fields(values) => values.as_slice(),
        Value::Leaf(_) => &[],
        Value::Number(_) => &[],
    }
}

/// The values of two lists, one by one.
fn pairs(alloc: Global, left: &[Value], right: &[Value]) -> Result<List<ValuePair>, AllocError>
    requires { length left.now ≡ length right.now }
    ensures left { IfOk result (λ ps. lefts ps ≡ left.now) }
    ensures right { IfOk result (λ ps. rights ps ≡ right.now) }
{
    let mut pairs = List::new(alloc);
    for i in 0..left.len() {
        pairs.push(ValuePair {
            left: copy_value(alloc, &left[i])?,
            right: copy_value(alloc, &right[i])?,
        })?;
    }
    Ok(pairs)
}

/// The equations of the fields of two values of one record sort, in the order of the fields. Together they say what the
/// equation of the two values says (`laws::an_equation_of_records_is_those_of_its_fields`).
pub fn split(alloc: Global, left: &Value, right: &Value) -> Result<List<ValuePair>, AllocError>
    requires { AreRecords left.now right.now }
    ensures left { IfOk result (λ ps. left.now ≡ Fields (lefts ps)) }
    ensures right { IfOk result (λ ps. right.now ≡ Fields (rights ps)) }
{
    let equations = pairs(alloc, fields(left), fields(right))?;
    Ok(equations)
}
