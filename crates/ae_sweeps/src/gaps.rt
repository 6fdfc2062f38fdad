//! What is left to do.
ghost use Rattle.std.specs.Prelude.{◌≡◌, MatchBool, IfOk, map};
ghost use Rattle.ae_sweeps.specs.Given.{rep_in};

use ae_monoid::Reduced;
use ae_num::forms::Name;
use std::alloc::{AllocError, Global};

/// What is left to do.
#[derive(Drop)]
pub enum Gap {
    /// A side of the rule has a name that is no representative.
    Stale(usize),
    /// A rule reduces the right side of the rule.
    Uncomposed(usize),
    /// The left side of one of the two rules is a part of that of the other.
    Collapsible {
        first: usize,
        second: usize,
    },
    /// The results of the two rules' overlap reduce to different multisets, which are these.
    Pair {
        first: usize,
        second: usize,
        left: Reduced,
        right: Reduced,
    },
    /// The name applies an AC symbol, and its arguments reduce to another multiset than its representative alone, which is this one.
    Unflat {
        name: Name,
        names: Reduced,
    },
    /// The two names apply one head to arguments of the same representatives, and have different representatives.
    Unequal {
        first: Name,
        second: Name,
    },
}

/// The representative of a name; a name that the list lacks is its own.
pub fn representative(reps: &[Name], name: Name) -> Name
    ensures { result ≡ rep_in reps.now name }
{
    match reps.get(name) {
        Some(rep) => *rep,
        None => name,
    }
}

/// The representatives of names.
pub fn representatives(
    alloc: Global,
    reps: &[Name],
    names: &[Name],
) -> Result<Vec<Name>, AllocError>
    ensures { IfOk result (λ v. v.items ≡ map (rep_in reps.now) names.now) }
{
    let mut each = Vec::new(alloc);
    for name in names {
        each.push(representative(reps, *name))?;
    }
    Ok(each)
}

/// Whether two lists of names are the same.
pub(crate) fn same_names(left: &[Name], right: &[Name]) -> bool
    ensures { MatchBool result (left.now ≡ right.now) (left.now ≡ right.now → ⊥) }
{
    left == right
}
