//! Denominators of values: what is computed of values has a denominator that divides the product of theirs.
#![tactic(auto)]

pub mod laws;
