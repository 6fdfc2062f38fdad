//! Unification of sorts: a most general unifier of pairs of sorts, or the reason why there is none.
#![tactic(auto)]

mod bindings;
mod cycles;
mod enter;
mod graph;
mod joins;
mod pairs;

pub use bindings::{Bindings, unify};
pub use pairs::{Clash, SortPair};
