//! The part of an output for each item of a problem.
#![tactic(auto)]

mod answers;
mod found;
mod items;
pub mod laws;
mod valid;

pub use items::item_part;
