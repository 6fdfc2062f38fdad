//! The least names that are alike.
ghost use Rattle.std.specs.Prelude.{◌≡◌, ◌<◌, ℕ, List, [], ◌∷◌, ◌++◌, length, slice_get, Some, IfOk, OnOk, IsTrue, MatchOption};
ghost use Rattle.std.specs.List.{Contains};
ghost use Rattle.ae_value_table.specs.Alike.{alike, IsLeastAlike};
ghost use Rattle.ae_least_names.specs.Buckets.{IsMet, AreMet};

use crate::buckets::{empty_buckets, put_into};
use crate::keys::key;
use ae_core::lists::List;
use ae_num::forms::Name;
use ae_value_table::Values;
use std::alloc::{AllocError, Global};

/// What stands for another name, where that is alike.
fn shared(values: &Values, reps: &[Name], other: Name, name: Name) -> Option<Name>
    ensures { MatchOption result (IsTrue (alike values.now other name) → other < length reps.now → ⊥) (IsMet values.now reps.now name) }
{
    if !values.same(other, name) {
        return None;
    }
    match reps.get(other) {
        None => None,
        Some(rep) => Some(*rep),
    }
}

/// What stands for the first of these names that is alike.
fn found(values: &Values, reps: &[Name], names: &[Name], name: Name) -> Option<Name>
    ensures { MatchOption result ((m : ℕ) → Contains names.now m → IsTrue (alike values.now m name) → m < length reps.now → ⊥) (IsMet values.now reps.now name) }
{
    for other in names {
        if let Some(rep) = shared(values, reps, *other, name) {
            return Some(rep);
        }
    }
    None
}

/// The least name that is alike, after all names before got theirs. A name that is its own is put into its bucket.
fn next(
    values: &Values,
    reps: &[Name],
    buckets: &mut Vec<List<Name>>,
    name: Name,
) -> Result<Name, AllocError>
    requires within { name < values.now.taken }
    requires count { length buckets.old.items ≡ values.now.taken }
    requires one_each { length reps.now ≡ name }
    requires met { AreMet values.now reps.now buckets.old.items }
    ensures least { IfOk result (λ rep. IsLeastAlike values.now name rep) }
    ensures count { OnOk result (length buckets.new.items ≡ length buckets.old.items) }
    ensures met { IfOk result (λ rep. (more : List ℕ) → more ≡ reps.now ++ rep ∷ [] → AreMet values.now more buckets.new.items) }
{
    let slot = key(values, name) % values.len();
    let names = buckets[slot].as_slice();
    if let Some(rep) = found(values, reps, names, name) {
        return Ok(rep);
    }
    put_into(buckets, slot, name)?;
    Ok(name)
}

/// For each name that has a value the least name that is alike.
pub fn least_names(alloc: Global, values: &Values) -> Result<Vec<Name>, AllocError>
    ensures one_each { IfOk result (λ reps. length reps.items ≡ values.now.taken) }
    ensures least { IfOk result (λ reps. (n r : ℕ) → slice_get reps.items n ≡ Some r → IsLeastAlike values.now n r) }
{
    let mut buckets = empty_buckets(alloc, values.len())?;
    let mut reps = Vec::new(alloc);
    for name in 0..values.len() {
        let rep = next(values, reps.as_slice(), &mut buckets, name)?;
        reps.push(rep)?;
    }
    Ok(reps)
}
