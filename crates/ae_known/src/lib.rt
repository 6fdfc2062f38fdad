//! The names of a store by what they apply.
#![tactic(auto)]

pub mod known;
pub mod rows;
