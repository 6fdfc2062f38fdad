//! Reads the lines of proofs: each value exactly from its text, or the first byte that no text continues.
#![tactic(auto)]

mod blocks;
mod lines;
mod lists;
mod rules;
mod steps;

pub use blocks::read_block;
pub use lines::read_lines;
