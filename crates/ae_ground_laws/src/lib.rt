//! Laws of the ground fragment: what occurs in a goal of it, what is built of its terms, trimmed proofs. These functions do nothing: their contracts
//! are theorems.
#![tactic(auto)]

pub mod laws;
