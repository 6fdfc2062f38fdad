//! Copies of values: each is equal to what it copies.
ghost use Rattle.std.specs.Prelude.{◌≡◌, IfOk};

use ae_core::lists::List;
use ae_num::copies::copied;
use ae_num::forms::Value;
use std::alloc::{AllocError, Global};

/// An equal value.
pub fn copy_value(alloc: Global, value: &Value) -> Result<Value, AllocError>
    ensures { IfOk result (λ copy. copy ≡ value.now) }
{
    match value {
        Value::Leaf(name) => Ok(Value::Leaf(*name)),
        Value::Number(lin) => Ok(Value::Number(copied(alloc, lin)?)),
        Value::Fields(values) => {
            let mut copies = List::new(alloc);
            for field in values.as_slice() {
                copies.push(copy_value(alloc, field)?)?;
            }
            Ok(Value::Fields(copies))
        }
    }
}
