//! Parts of multisets.
ghost use Rattle.std.specs.Prelude.{MatchBool};
ghost use Rattle.std.specs.List.Sorted.{IsNonDecreasing};
ghost use Rattle.ae_multiset.specs.Multisets.{IsPart};

use std::cmp::Ordering;

/// Whether the one multiset is a part of the other.
pub fn part_of(small: &[usize], large: &[usize]) -> bool
    requires small { IsNonDecreasing small.now }
    requires large { IsNonDecreasing large.now }
    ensures { MatchBool result (IsPart small.now large.now) (IsPart small.now large.now → ⊥) }
{
    let mut i = 0;
    let mut j = 0;
    while i < small.len() && j < large.len() {
        match small[i].cmp(&large[j]) {
            Ordering::Less => return false,
            Ordering::Equal => {
                i += 1;
                j += 1;
            }
            Ordering::Greater => j += 1,
        }
    }
    i == small.len()
}
