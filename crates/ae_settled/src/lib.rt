//! When the values and the rules that a state holds of a store's names are a completed system.
#![tactic(auto)]

pub mod laws;
