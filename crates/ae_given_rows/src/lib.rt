//! The lines that say the rows of inequality literals between names.
#![tactic(auto)]

pub mod given;
