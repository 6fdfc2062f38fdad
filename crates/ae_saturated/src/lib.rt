//! Whether a state is saturated, told by running.
#![tactic(auto)]

pub mod firsts;
pub mod literals;
pub mod names;
pub mod order;
pub mod saturated;
