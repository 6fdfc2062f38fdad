//! The parts of two forms, key by key.

ghost use Rattle.std.specs.Prelude.{◌≡◌, ◌<◌, ◌≤◌, ◌+◌, [], ◌∷◌, drop, length, IfOk, IfNone, IfSome, pos};
ghost use Rattle.ae_num.specs.Forms.{IsRising};
ghost use Rattle.ae_num.specs.Inner.Pairs.{pairs_of};

use crate::forms::{Name, Part};
use sqlite_items::{Items, at};
use std::alloc::{AllocError, Global};
use std::cmp::Ordering;

/// A key with its factors in two forms, 0 where one lacks it.
#[derive(Clone, Copy)]
pub struct Pair {
    pub key: Name,
    pub left: i128,
    pub right: i128,
}

/// The pair of the least key, and how many parts it takes from each side.
#[derive(Clone, Copy)]
pub struct Taken {
    pub pair: Pair,
    pub left: usize,
    pub right: usize,
}

fn from_left(part: &Part) -> Taken
    ensures { result ≡ record { pair = record { key = part.now.key; left = part.now.factor; right = pos 0 }; left = 1; right = 0 } }
{
    Taken {
        pair: Pair {
            key: part.key,
            left: part.factor,
            right: 0,
        },
        left: 1,
        right: 0,
    }
}

fn from_right(part: &Part) -> Taken
    ensures { result ≡ record { pair = record { key = part.now.key; left = pos 0; right = part.now.factor }; left = 0; right = 1 } }
{
    Taken {
        pair: Pair {
            key: part.key,
            left: 0,
            right: part.factor,
        },
        left: 0,
        right: 1,
    }
}

fn from_both(left: &Part, right: &Part) -> Taken
    ensures { result ≡ record { pair = record { key = left.now.key; left = left.now.factor; right = right.now.factor }; left = 1; right = 1 } }
{
    Taken {
        pair: Pair {
            key: left.key,
            left: left.factor,
            right: right.factor,
        },
        left: 1,
        right: 1,
    }
}

/// The pair of the least key of two forms from these places on.
fn first_pair(left: &[Part], left_at: usize, right: &[Part], right_at: usize) -> Option<Taken>
    requires left { IsRising left.now }
    requires right { IsRising right.now }
    requires left_at { left_at ≤ length left.now }
    requires right_at { right_at ≤ length right.now }
    ensures none { IfNone result ((drop left_at left.now ≡ []) × (drop right_at right.now ≡ [])) }
    ensures first { IfSome result (λ taken. pairs_of (drop left_at left.now) (drop right_at right.now) ≡ taken.pair ∷ pairs_of (drop (left_at + taken.left) left.now) (drop (right_at + taken.right) right.now)) }
    ensures left_within { IfSome result (λ taken. left_at + taken.left ≤ length left.now) }
    ensures right_within { IfSome result (λ taken. right_at + taken.right ≤ length right.now) }
    ensures some { IfSome result (λ taken. 0 < taken.left + taken.right) }
{
    match (at(left, left_at), at(right, right_at)) {
        (None, None) => None,
        (Some(part), None) => Some(from_left(part)),
        (None, Some(part)) => Some(from_right(part)),
        (Some(part), Some(other)) => match part.key.cmp(&other.key) {
            Ordering::Less => Some(from_left(part)),
            Ordering::Greater => Some(from_right(other)),
            Ordering::Equal => Some(from_both(part, other)),
        },
    }
}

/// The pairs of all keys of two forms, rising.
pub fn paired(alloc: Global, left: &[Part], right: &[Part]) -> Result<Items<Pair>, AllocError>
    requires left { IsRising left.now }
    requires right { IsRising right.now }
    ensures { IfOk result (λ pairs. pairs ≡ pairs_of left.now right.now) }
{
    let mut pairs = Items::new(alloc);
    let mut left_at = 0;
    let mut right_at = 0;
    'keys: while let Some(taken) = first_pair(left, left_at, right, right_at) {
        pairs.push(taken.pair)?;
        left_at += taken.left;
        right_at += taken.right;
    }
    Ok(pairs)
}
