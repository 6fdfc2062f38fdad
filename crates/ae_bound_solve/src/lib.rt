//! Kept rows in one call: their point, why they can't hold, or which of them are tight.
#![tactic(auto)]

pub mod answer;
pub mod derived;
pub mod licensed;
mod refuted;
pub mod solving;
mod sorts;
