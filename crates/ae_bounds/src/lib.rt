//! Inequalities that are kept, and their combinations, which a journal gets.
#![tactic(auto)]

pub mod bounds;
pub mod combining;
pub mod directions;
pub mod finding;
mod heads;
pub mod noting;
mod rounding;
pub mod rows;
