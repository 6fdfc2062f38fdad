//! The arithmetic that the prover stands on: integers, fractions, greatest common divisors and linear forms.
#![tactic(auto)]

pub mod laws;
