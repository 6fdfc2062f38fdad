//! Sorts, terms, formulas, problems and proofs of the prover, and what they mean.
#![tactic(auto)]

pub mod copies;
pub mod equality;
pub mod formulas;
pub mod laws;
pub mod lists;
pub mod orders;
pub mod problems;
pub mod proofs;
pub mod putting;
pub mod sorts;
pub mod terms;
pub mod words;
