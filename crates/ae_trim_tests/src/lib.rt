//! Tests of trimmed proofs and of the axioms of a proof.
#![tactic(auto)]

#[cfg(test)]
mod tests;
