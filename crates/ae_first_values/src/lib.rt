//! The first values of names that arithmetic computes from numerals and from other names, each with the step that states it.
#![tactic(auto)]

mod numbers;
mod numerals;
mod operations;

pub use numbers::{Given, inverse, opposite};
pub use numerals::numeral;
pub use operations::{difference, multiple, sum};
