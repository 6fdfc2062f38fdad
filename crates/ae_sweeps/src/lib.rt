//! The sweep: what is left to do about what a state holds of a store. It changes nothing.
#![tactic(auto)]

mod congruences;
mod gaps;
mod joins;
mod pairs;
mod sides;
mod sweep;

pub use gaps::{Gap, representative, representatives};
pub use sweep::first_gap;
