//! Rows with their derivations, and what they come to: a point, a block that adds up rows to one that can't hold, or rows that hold with equality alone.
#![tactic(auto)]

pub mod answer;
mod answering;
pub mod bounds;
mod holding;
pub mod laws;
pub mod rows;
mod tagging;
mod tight;
