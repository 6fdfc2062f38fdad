//! Which names are the same, against what follows from the assumed equations.
#![tactic(auto)]

pub mod laws;
