//! Equations of two numbers: the largest name in their difference gets another value.
#![tactic(auto)]

mod conflicts;
mod differences;
mod numbers;
mod solutions;
mod solving;

pub use numbers::number_equation;
