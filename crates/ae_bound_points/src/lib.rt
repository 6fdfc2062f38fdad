//! The point of kept rows: where no combination is left, no row can't be and no combination is 0, each row that isn't 0 is positive at it.
#![tactic(auto)]

pub mod laws;
pub mod point;
mod stages;
