//! The steps that say the values of names.
ghost use Rattle.std.specs.Prelude.{◌≡◌, ℕ, Some};
ghost use Rattle.ae_value_table.specs.Table.{just_at};

use ae_num::forms::Name;
use ae_value_table::Values;

/// The number of the step that says the number or the leaf of a name.
pub(crate) fn said_by(values: &Values, name: Name) -> usize
    requires { (k : ℕ) × (just_at values.now name ≡ Some k) }
    ensures { just_at values.now name ≡ Some result }
{
    match values.just(name) {
        Some(step) => step,
        None => unreachable!(),
    }
}
