//! The canonical spelling.
ghost use Rattle.std.specs.Prelude.{◌≡◌, IfOk};
ghost use Rattle.std.specs.List.Sorted.{IsNonDecreasing};
ghost use Rattle.ae_multiset.specs.Multisets.{rising};

use std::alloc::{AllocError, Global};

/// The canonical spelling of a multiset: its names in rising order.
pub fn spelled(alloc: Global, names: &[usize]) -> Result<Vec<usize>, AllocError>
    ensures spelling { IfOk result (λ v. v.items ≡ rising names.now) }
    ensures rises { IfOk result (λ v. IsNonDecreasing v.items) }
{
    let mut names = Vec::from_slice(alloc, names)?;
    names.sort_unstable();
    Ok(names)
}
