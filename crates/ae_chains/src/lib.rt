//! What derivations of chains of equations between constants are worth.
#![tactic(auto)]

pub mod laws;
