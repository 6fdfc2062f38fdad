//! Rows that were kept for the inequality literals of a journal: when they agree with it, and what a point of theirs says of the literals.
#![tactic(auto)]

pub mod laws;
