//! Copies of forms, and whether two are the same.
ghost use Rattle.std.specs.Prelude.{◌≡◌, ◌↔◌, IsTrue, IfOk};

use crate::forms::{Lin, Part};
use sqlite_items::Items;
use std::alloc::{AllocError, Global};

/// An equal form.
pub fn copied(alloc: Global, form: &Lin) -> Result<Lin, AllocError>
    ensures { IfOk result (λ copy. copy ≡ form.now) }
{
    Ok(Lin {
        den: form.den,
        parts: Items::from_slice(alloc, form.parts.as_slice())?,
        constant: form.constant,
    })
}

/// Whether two parts are the same.
fn same_part(left: &Part, right: &Part) -> bool
    ensures { IsTrue result ↔ (left.now ≡ right.now) }
{
    left.key == right.key && left.factor == right.factor
}

/// Whether two lists of parts are the same.
fn same_parts(left: &[Part], right: &[Part]) -> bool
    ensures { IsTrue result ↔ (left.now ≡ right.now) }
{
    if left.len() != right.len() {
        return false;
    }
    for i in 0..left.len() {
        if !same_part(&left[i], &right[i]) {
            return false;
        }
    }
    true
}

/// Whether two forms are the same.
pub fn same_form(left: &Lin, right: &Lin) -> bool
    ensures { IsTrue result ↔ (left.now ≡ right.now) }
{
    left.den == right.den
        && left.constant == right.constant
        && same_parts(left.parts.as_slice(), right.parts.as_slice())
}
