//! Which inequalities may stand where a search has nothing left to do.
#![tactic(auto)]

pub mod laws;
