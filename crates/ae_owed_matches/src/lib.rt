//! Which matches of an owner are owed.
#![tactic(auto)]

pub mod finding;
pub mod laws;
