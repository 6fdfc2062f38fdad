//! The least names that are alike.
ghost use Rattle.std.specs.Prelude.{◌≡◌, ℕ, length, slice_get, Some, IfOk};
ghost use Rattle.ae_value_table.specs.Alike.{IsLeastAlike};

use crate::table::Values;
use ae_num::forms::Name;
use std::alloc::AllocError;

/// The least of the names that are alike.
fn least(values: &Values, name: Name) -> Name
    ensures { IsLeastAlike values.now name result }
{
    for other in 0..name {
        if values.same(other, name) {
            return other;
        }
    }
    name
}

impl Values {
    /// For each name that has a value the least name that is alike.
    pub fn representatives(&self) -> Result<Vec<Name>, AllocError>
        ensures one_each { IfOk result (λ reps. length reps.items ≡ self.now.taken) }
        ensures least { IfOk result (λ reps. (n r : ℕ) → slice_get reps.items n ≡ Some r → IsLeastAlike self.now n r) }
    {
        let mut reps = Vec::new(self.alloc);
        for name in 0..self.len() {
            reps.push(least(self, name))?;
        }
        Ok(reps)
    }
}
