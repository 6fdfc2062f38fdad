//! Names in buckets.
ghost use Rattle.std.specs.Prelude.{◌≡◌, ◌<◌, ℕ, [], length, get_or, IfOk, OnOk};
ghost use Rattle.std.specs.List.{Contains};

use ae_core::lists::List;
use ae_num::forms::Name;
use std::alloc::{AllocError, Global};

/// So many empty buckets.
pub(crate) fn empty_buckets(alloc: Global, count: usize) -> Result<Vec<List<Name>>, AllocError>
    ensures { IfOk result (λ b. length b.items ≡ count) }
{
    let mut buckets = Vec::new(alloc);
    for _ in 0..count {
        buckets.push(List::new(alloc))?;
    }
    Ok(buckets)
}

/// Puts a name into a bucket.
pub(crate) fn put_into(
    buckets: &mut Vec<List<Name>>,
    slot: usize,
    name: Name,
) -> Result<(), AllocError>
    requires { slot < length buckets.old.items }
    ensures count { OnOk result (length buckets.new.items ≡ length buckets.old.items) }
    ensures own { OnOk result (Contains (get_or buckets.new.items slot []) name) }
    ensures others { OnOk result ((k m : ℕ) → Contains (get_or buckets.old.items k []) m → Contains (get_or buckets.new.items k []) m) }
{
    let bucket = &mut buckets[slot];
    bucket.push(name)
}
