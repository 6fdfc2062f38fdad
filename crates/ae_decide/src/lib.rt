//! Whether a system is completed, told by running it: a function for each clause of the definition.
#![tactic(auto)]

pub mod congruence;
pub mod laws;
pub mod leaves;
pub mod names;
pub mod overlaps;
pub mod records;
pub mod reduction;
pub mod rules;
pub mod values;
