//! What stays where lines come later.
#![tactic(auto)]

pub mod laws;
