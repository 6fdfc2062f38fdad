//! The sides of a row of sort `int`.
#![tactic(auto)]

pub mod entering;
pub mod laws;
pub mod sides;
