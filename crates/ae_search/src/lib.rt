//! The answer to a goal.
#![tactic(auto)]

mod ending;
mod proving;

pub use proving::prove;
