//! The rows in which a name stands, and the names that have a name as their leaf.
ghost use Rattle.std.specs.Prelude.{◌≡◌, ◌<◌, ℕ, true, false, Some, None, IfOk, IfSome, IfNone};
ghost use Rattle.std.specs.List.{AllByRecursion};
ghost use Rattle.ae_linear.specs.declared.rows.Row.{Row};
ghost use Rattle.ae_linear.specs.Rows.{row_at};
ghost use Rattle.ae_num.specs.Forms.{has_key, factor_of};
ghost use Rattle.ae_pmap.specs.Forest.{present};
ghost use Rattle.ae_pmap.specs.Pairs.{found};
ghost use Rattle.ae_value_table.specs.Table.{just_at};
ghost use Rattle.ae_values.specs.Inner.Before.{IsBefore, IsChanged, IsFollowing, IsFollower};

use ae_core::lists::List;
use ae_num::forms::{Name, Part};
use ae_value_steps::Before;
use ae_value_table::Values;
use std::alloc::{AllocError, Global};

/// What is kept of the row of a name before a number is put for another name in it.
#[derive(Clone, Copy)]
pub(crate) struct Change {
    pub(crate) name: Name,
    pub(crate) before: Before,
}

/// A name that has another as its leaf, and the number of the step that says so.
#[derive(Clone, Copy)]
pub(crate) struct Follower {
    pub(crate) name: Name,
    pub(crate) step: usize,
}

/// The factor of a name.
#[derive(Clone, Copy)]
struct Factor {
    number: i128,
}

/// The factor of a name, where a part has it.
fn factor_in(parts: &[Part], name: Name) -> Option<Factor>
    ensures some { IfSome result (λ factor. (has_key parts.now name ≡ true) × (factor.number ≡ factor_of parts.now name)) }
    ensures none { IfNone result (has_key parts.now name ≡ false) }
{
    for part in parts {
        if part.key == name {
            return Some(Factor {
                number: part.factor,
            });
        }
    }
    None
}

/// What is kept of the row of a name, where another name stands in it and a step says it.
fn change_of(values: &Values, name: Name, put: Name) -> Option<Change>
    ensures some { IfSome result (λ change. IsBefore values.now put change × (change.name ≡ name)) }
    ensures none { IfNone result ((row : Row) (k : ℕ) → row_at values.now.rows name ≡ Some row → just_at values.now name ≡ Some k → has_key row.value.parts put ≡ false) }
{
    let row = values.row(name)?;
    let step = values.just(name)?;
    let factor = factor_in(row.value.parts.as_slice(), put)?;
    Some(Change {
        name,
        before: Before {
            den: row.value.den,
            factor: factor.number,
            step,
        },
    })
}

/// What is kept of the rows in which a name stands.
pub(crate) fn changes_of(
    alloc: Global,
    values: &Values,
    put: Name,
) -> Result<List<Change>, AllocError>
    ensures each { IfOk result (λ changes. AllByRecursion (IsBefore values.now put) changes) }
    ensures all { IfOk result (λ changes. (n k : ℕ) (row : Row) → n < values.now.taken → row_at values.now.rows n ≡ Some row → just_at values.now n ≡ Some k → has_key row.value.parts put ≡ true → IsChanged changes n) }
{
    let mut changes = List::new(alloc);
    for name in 0..values.len() {
        let Some(change) = change_of(values, name, put) else {
            continue;
        };
        changes.push(change)?;
    }
    Ok(changes)
}

/// What is kept of a name that has another as its leaf, where a step says so.
fn follower_of(values: &Values, name: Name, leaf: Name) -> Option<Follower>
    ensures some { IfSome result (λ follower. IsFollowing values.now leaf follower × (follower.name ≡ name)) }
    ensures none { IfNone result ((k : ℕ) → found (present values.now.leaves) name ≡ Some leaf → just_at values.now name ≡ Some k → ⊥) }
{
    if !values.has_leaf(name, leaf) {
        return None;
    }
    let step = values.just(name)?;
    Some(Follower { name, step })
}

/// The names that have a name as their leaf, but for itself.
pub(crate) fn followers_of(
    alloc: Global,
    values: &Values,
    leaf: Name,
) -> Result<List<Follower>, AllocError>
    ensures each { IfOk result (λ followers. AllByRecursion (IsFollowing values.now leaf) followers) }
    ensures all { IfOk result (λ followers. (n k : ℕ) → n < values.now.taken → found (present values.now.leaves) n ≡ Some leaf → just_at values.now n ≡ Some k → IsFollower followers n) }
{
    let mut followers = List::new(alloc);
    for name in 0..values.len() {
        let Some(follower) = follower_of(values, name, leaf) else {
            continue;
        };
        followers.push(follower)?;
    }
    Ok(followers)
}
