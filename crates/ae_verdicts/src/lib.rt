//! What is said of the parts that an output gives for the goals of a problem, and the lines that say it.
#![tactic(auto)]

pub mod checking;
pub mod laws;
pub mod lines;
