//! Rules that are dropped together: the lines that drop them may come, and stay in step.
#![tactic(auto)]

pub mod laws;
