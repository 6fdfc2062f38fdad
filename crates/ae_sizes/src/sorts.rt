//! How large sorts are.

ghost use Rattle.std.specs.Prelude.{◌≡◌, IfOk, map};
ghost use Rattle.ae_core.specs.declared.terms.Sort as core;
ghost use Rattle.ae_elab.specs.Conditions.{shown};
ghost use Rattle.ae_elab.specs.Sizes as size;
ghost use Rattle.ae_elab.specs.Weights.{sort_sizes};
ghost use Rattle.ae_sizes.specs.Inner.Counted.{counted, pile};
ghost use Rattle.ae_types.specs.Bound.{bound};

use crate::weights::{Size, leaf, nothing, round, side_by_side};
use ae_core::terms::Sort;
use ae_types::Bindings;
use std::alloc::AllocError;

// The size of a sort.
#[tactic(auto, using(crate::proofs::SortSizes::sort_sizes_are))]
fn size_of_sort(sort: &Sort) -> Size
    ensures { result ≡ counted (size.sort_size sort.now) }
{
    match sort {
        Sort::Var(_) => leaf(),
        Sort::Rigid(_) => leaf(),
        Sort::Int => leaf(),
        Sort::Real => leaf(),
        Sort::Bool => leaf(),
        Sort::Unit => leaf(),
        Sort::Named { head: _, args } => {
            let mut parts = nothing();
            for arg in args.as_slice() {
                parts = side_by_side(parts, size_of_sort(arg));
            }
            round(parts)
        }
    }
}

/// The sizes of sorts together, with the sorts put for their unknowns that the bindings have for them.
pub fn bound_sizes(bindings: &Bindings, sorts: &[Sort]) -> Result<Size, AllocError>
    ensures { IfOk result (λ s. s ≡ counted (pile (sort_sizes (shown (bound bindings.now)) sorts.now))) }
{
    let mut parts = nothing();
    for sort in sorts {
        let whole = bindings.apply(sort)?;
        parts = side_by_side(parts, size_of_sort(&whole));
    }
    Ok(parts)
}
