//! The order of multisets.
ghost use Rattle.std.specs.Ordering.{MatchOrdering};
ghost use Rattle.std.specs.Prelude.{◌≡◌};
ghost use Rattle.std.specs.List.Sorted.{IsNonDecreasing};
ghost use Rattle.ae_multiset.specs.Multisets.{IsLess};

use std::cmp::Ordering;

/// How two multisets stand in the order: by size first, and then from the largest name down.
pub fn compare(left: &[usize], right: &[usize]) -> Ordering
    requires left { IsNonDecreasing left.now }
    requires right { IsNonDecreasing right.now }
    ensures { MatchOrdering result (IsLess left.now right.now) (left.now ≡ right.now) (IsLess right.now left.now) }
{
    if left.len() < right.len() {
        return Ordering::Less;
    }
    if right.len() < left.len() {
        return Ordering::Greater;
    }
    let mut i = left.len();
    while i > 0 {
        i -= 1;
        if left[i] < right[i] {
            return Ordering::Less;
        }
        if right[i] < left[i] {
            return Ordering::Greater;
        }
    }
    Ordering::Equal
}
