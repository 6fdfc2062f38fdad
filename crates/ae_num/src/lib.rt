//! Numbers within the limits of 128 bits, and linear forms over names with one denominator.
#![tactic(auto)]

pub mod copies;
pub mod differences;
pub mod forms;
pub mod laws;
pub mod numbers;
mod pairs;
pub mod reduction;
mod sums;
