//! Representatives: the steps that equate names with them.
#![tactic(auto)]

mod steps;

pub use steps::equal_to_representatives;
