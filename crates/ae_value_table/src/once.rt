//! Whether a form is once a name.
ghost use Rattle.std.specs.Prelude.{◌≡◌, ◌↔◌, IsTrue};
ghost use Rattle.ae_value_table.specs.Table.{own};

use ae_num::forms::{Lin, Name, Part};

/// Whether parts are once a name.
fn are_once(parts: &[Part], name: Name) -> bool
    ensures { IsTrue result ↔ (parts.now ≡ (own name).parts) }
{
    match parts {
        [part] => part.key == name && part.factor == 1,
        _ => false,
    }
}

/// Whether a form is once a name.
pub(crate) fn is_own(form: &Lin, name: Name) -> bool
    ensures { IsTrue result ↔ (form.now ≡ own name) }
{
    form.den == 1 && form.constant == 0 && are_once(form.parts.as_slice(), name)
}
