//! The rows of inequality literals, from the values that the rewriting state holds of their sides.
#![tactic(auto)]

pub mod comparing;
pub mod laws;
pub mod literals;
mod naming;
mod rows;
pub mod trails;

pub use ae_combine::State;
