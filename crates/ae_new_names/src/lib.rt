//! Names of a store that have no values yet.
#![tactic(auto)]

mod names;

pub use names::take_new;
