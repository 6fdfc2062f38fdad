//! The calculus: what a line of a proof states, which lines are allowed, and what a derivation is, with the laws of these
//! definitions.
#![tactic(auto)]

pub mod facts;
pub mod laws;
pub mod linear_laws;
pub mod literals;
pub mod rows;
