//! Proofs cut down to the lines that they use, and the axioms on which a proof rests.
#![tactic(auto)]

pub mod axioms;
mod copies;
pub mod laws;
pub mod trim;
mod used;
