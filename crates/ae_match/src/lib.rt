//! Matching over a store.
#![tactic(auto)]

pub mod laws;
