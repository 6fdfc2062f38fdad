//! Each text of the demo has a problem.
#![tactic(auto)]

pub mod laws;
