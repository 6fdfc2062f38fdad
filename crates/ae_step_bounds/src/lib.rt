//! The bound on steps that words state.
#![tactic(auto)]

pub mod laws;
