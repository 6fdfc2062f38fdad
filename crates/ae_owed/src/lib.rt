//! Instances: which matches are owed, and what it means that none is.
#![tactic(auto)]

pub mod laws;
