//! Names, and their values in a system.
ghost use Rattle.std.specs.Prelude.{◌≡◌, ◌↔◌, ℕ, slice_get, Some, IsTrue};
ghost use Rattle.ae_core.specs.declared.terms.Sort.{Real};
ghost use Rattle.ae_num.specs.declared.forms.Lin.{Lin as LinValue};
ghost use Rattle.ae_num.specs.declared.forms.Value as value;
ghost use Rattle.ae_store.specs.Terms.{HasOneName};

use ae_core::equality::same_sort;
use ae_core::terms::{Sort, Term};
use ae_decide::values::place_of;
use ae_journal::systems::System;
use ae_num::forms::{Lin, Name, Value};

/// The name of a term that has one.
pub fn name_in(names: &[Term], term: &Term) -> Name
    requires apart { HasOneName names.now }
    requires there { (n : ℕ) × (slice_get names.now n ≡ Some term.now) }
    ensures { slice_get names.now result ≡ Some term.now }
{
    match place_of(names, term) {
        Some(name) => name,
        None => unreachable!(),
    }
}

/// The value of a name of a number.
pub fn number_of<'a>(system: &'a System, name: Name) -> &'a Lin
    requires number { (f : LinValue) × (slice_get system.now.values name ≡ Some (value.Number f)) }
    ensures { slice_get system.now.values name ≡ Some (value.Number result.now) }
{
    let values = system.values.as_slice();
    match &values[name] {
        Value::Number(form) => form,
        Value::Leaf(_) => unreachable!(),
        Value::Fields(_) => unreachable!(),
    }
}

/// Whether a sort is `real`.
pub fn is_real(sort: &Sort) -> bool
    ensures { IsTrue result ↔ (sort.now ≡ Real) }
{
    same_sort(sort, &Sort::Real)
}
