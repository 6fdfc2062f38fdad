//! Blocks of rows that can't hold: from the derivations of the assumed rows, line by line, to the end.
#![tactic(auto)]

mod ancestors;
pub mod derived;
mod emitting;
pub mod explaining;
pub mod given;
pub mod lines;
pub mod tight;
