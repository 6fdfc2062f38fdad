//! Sums of multisets.
ghost use Rattle.std.specs.Prelude.{◌++◌, IfOk};
ghost use Rattle.std.specs.List.Sorted.{IsNonDecreasing};
ghost use Rattle.ae_multiset.specs.Multisets.{IsSame};

use std::alloc::{AllocError, Global};

/// The sum, in rising order: the names of both, each as often as in both together.
pub fn sum(alloc: Global, left: &[usize], right: &[usize]) -> Result<Vec<usize>, AllocError>
    requires left { IsNonDecreasing left.now }
    requires right { IsNonDecreasing right.now }
    ensures names { IfOk result (λ v. IsSame v.items (left.now ++ right.now)) }
    ensures rises { IfOk result (λ v. IsNonDecreasing v.items) }
{
    let mut merged = Vec::new(alloc);
    let mut i = 0;
    let mut j = 0;
    while i < left.len() && j < right.len() {
        if left[i] <= right[j] {
            merged.push(left[i])?;
            i += 1;
        } else {
            merged.push(right[j])?;
            j += 1;
        }
    }
    merged.extend_from_slice(&left[i..])?;
    merged.extend_from_slice(&right[j..])?;
    Ok(merged)
}
