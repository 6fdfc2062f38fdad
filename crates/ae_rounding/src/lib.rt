//! Rows over integers, rounded: the whole numbers that make a row not negative also make its rounded form not negative.
#![tactic(auto)]

pub mod laws;
pub mod rounding;
