//! The making of a point in a journal: a step of it that leaves the limits is licensed.
#![tactic(auto)]

pub mod laws;
