//! A block that is opened is a step of a search.
#![tactic(auto)]

pub mod laws;
