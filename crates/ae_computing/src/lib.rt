//! Computed arithmetic: whether the values of a system are those that its numerals and linear operations state.
#![tactic(auto)]

pub mod computing;
pub mod forms;
pub mod fractions;
mod operations;
pub mod values;
