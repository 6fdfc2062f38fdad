//! Reads the texts of proofs, of either version: the proof whose text it is, or the first byte that no text continues.
#![tactic(auto)]

mod places;
mod proofs;

pub use proofs::{read_proof, read_proof_at};
