//! What every crate of the prover stands on: lists, boxes and words as contracts see them.
#![tactic(auto)]

pub mod lists;
#[cfg(test)]
mod word_tests;
pub mod words;
