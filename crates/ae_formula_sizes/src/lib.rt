//! Whether formulas are within the limits on nodes and levels.
#![tactic(auto)]

mod counting;
mod sizes;

pub use sizes::is_small;
