//! The least multiset that has two as parts.
ghost use Rattle.std.specs.Prelude.{IfOk};
ghost use Rattle.std.specs.List.Sorted.{IsNonDecreasing};
ghost use Rattle.ae_multiset.specs.Multisets.{IsSame, union};

use std::alloc::{AllocError, Global};
use std::cmp::Ordering;

/// The least multiset of which both are parts, in rising order.
pub fn union_(alloc: Global, left: &[usize], right: &[usize]) -> Result<Vec<usize>, AllocError>
    requires left { IsNonDecreasing left.now }
    requires right { IsNonDecreasing right.now }
    ensures names { IfOk result (λ v. IsSame v.items (union left.now right.now)) }
    ensures rises { IfOk result (λ v. IsNonDecreasing v.items) }
{
    let mut merged = Vec::new(alloc);
    let mut i = 0;
    let mut j = 0;
    while i < left.len() && j < right.len() {
        match left[i].cmp(&right[j]) {
            Ordering::Less => {
                merged.push(left[i])?;
                i += 1;
            }
            Ordering::Equal => {
                merged.push(left[i])?;
                i += 1;
                j += 1;
            }
            Ordering::Greater => {
                merged.push(right[j])?;
                j += 1;
            }
        }
    }
    merged.extend_from_slice(&left[i..])?;
    merged.extend_from_slice(&right[j..])?;
    Ok(merged)
}
