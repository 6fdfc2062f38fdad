//! Rules that rewrite multisets of names, for the AC symbols of a problem.
#![tactic(auto)]

mod chains;
mod collapsing;
mod composing;
mod entering;
mod finding;
mod overlapping;
mod pending;
mod reducing;
mod releasing;
mod rules;
mod symbols;
mod versions;

pub use finding::part_of;
pub use pending::PendingPair;
pub use reducing::Reduced;
pub use rules::{Kept, Rules, Shared};
