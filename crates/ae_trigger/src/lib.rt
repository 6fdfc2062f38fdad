//! The triggers of quantified formulas and of axioms with type variables.
#![tactic(auto)]

mod bodies;
mod candidates;
mod choice;
mod kept;
pub mod occurrences;
pub mod patterns;
