//! The matches of a trigger among the names of a store.
#![tactic(auto)]

pub mod candidates;
mod classes;
pub mod matches;
pub mod one_match;
mod testing;
