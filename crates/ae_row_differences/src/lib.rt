//! The difference of the values of an inequality's sides, and what a journal says of its widths.
#![tactic(auto)]

pub mod differences;
pub mod laws;
