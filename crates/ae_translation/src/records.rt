//! Records, of which some fields have values that are written.

ghost use Rattle.std.specs.Prelude.{◌≡◌, ◌∷◌, [], ◌++◌, List, IfOk};
ghost use Rattle.ae_core.specs.declared.terms.Sort.{Sort};
ghost use Rattle.ae_core.specs.declared.terms.Term.{Term};
ghost use Rattle.ae_elab.specs.Elaboration as rule;
ghost use Rattle.ae_elab.specs.Elaboration.{◌|>◌, leaf};
ghost use Rattle.ae_lifting.specs.Lifting.{cases_of, changed_in};

use crate::answers::both;
use crate::terms::behind;
use ae_core::lists::{Boxed, List};
use ae_core::terms::Sort;
use ae_lifting::cases::{Cases, changed};
use std::alloc::{AllocError, Global};

/// A record of the type of number `of`, which has `count` fields: those at `places` have the values that are given, and the
/// others are fields of `base`.
#[inline(never)]
pub fn with_fields(
    alloc: Global,
    base: Result<Boxed<Cases>, AllocError>,
    values: Result<Boxed<Cases>, AllocError>,
    of: usize,
    sorts: Result<List<Sort>, AllocError>,
    count: usize,
    places: &[usize],
) -> Result<Boxed<Cases>, AllocError>
    ensures { (x y : rule.Cases (List Term)) (ss : List Sort) → IfOk base (λ cs. cases_of cs ≡ x) → IfOk values (λ cs. cases_of cs ≡ y) → IfOk sorts (λ zs. zs ≡ ss)
        → IfOk result (λ cs. cases_of cs ≡ ((x |> λ us. y |> λ vs. leaf (us ++ vs)) |> λ us. leaf (changed_in of ss count places.now us ∷ []))) }
{
    let all = behind(alloc, base, values);
    let (terms, sorts) = both(all, sorts)?;
    let terms = terms.into_inner();
    let record = changed(alloc, terms, of, sorts.as_slice(), count, places)?;
    Boxed::new(alloc, record)
}
