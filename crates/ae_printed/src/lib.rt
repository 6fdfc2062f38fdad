//! Which parts of an output are read back and pass the check.
#![tactic(auto)]

pub mod laws;
