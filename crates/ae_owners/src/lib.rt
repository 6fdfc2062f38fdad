//! What can be instantiated: universal literals, and axioms with type variables.
#![tactic(auto)]

pub mod finding;
pub mod owners;
