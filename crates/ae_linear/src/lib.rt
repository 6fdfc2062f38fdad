//! Equations between linear forms: solved for their largest name, and the values of eliminated names.
#![tactic(auto)]

mod occurrences;
mod rows;
mod solving;

pub use rows::{Row, Rows, Shared};
pub use solving::{Solved, solution, solve};
