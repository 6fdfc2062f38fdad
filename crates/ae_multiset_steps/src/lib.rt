//! Steps that equate multisets of names under an AC symbol: each call adds the steps that one change of a multiset needs.
#![tactic(auto)]

mod adding;
mod basic;
mod longer;
mod renaming;
mod rewriting;

pub use basic::{arguments_joined, chained, reordered, turned};
pub use longer::extended;
pub use renaming::renamed;
pub use rewriting::{Rewriting, overlapped, rewritten};
