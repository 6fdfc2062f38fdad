//! Differences of multisets.
ghost use Rattle.std.specs.Prelude.{IfOk};
ghost use Rattle.std.specs.List.Sorted.{IsNonDecreasing};
ghost use Rattle.ae_multiset.specs.Multisets.{IsSame, minus};

use std::alloc::{AllocError, Global};
use std::cmp::Ordering;

/// The difference, in rising order: the names of the first, each without as many as stand in the second.
pub fn minus(alloc: Global, left: &[usize], right: &[usize]) -> Result<Vec<usize>, AllocError>
    requires left { IsNonDecreasing left.now }
    requires right { IsNonDecreasing right.now }
    ensures names { IfOk result (λ v. IsSame v.items (minus left.now right.now)) }
    ensures rises { IfOk result (λ v. IsNonDecreasing v.items) }
{
    let mut merged = Vec::new(alloc);
    let mut i = 0;
    let mut j = 0;
    while i < left.len() && j < right.len() {
        match left[i].cmp(&right[j]) {
            Ordering::Less => {
                merged.push(left[i])?;
                i += 1;
            }
            Ordering::Equal => {
                i += 1;
                j += 1;
            }
            Ordering::Greater => j += 1,
        }
    }
    merged.extend_from_slice(&left[i..])?;
    Ok(merged)
}
