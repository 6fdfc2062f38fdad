//! What a theory promises to a solver.
#![tactic(auto)]

mod chains;
pub mod constants;
mod explaining;
pub mod naming;
pub mod nodes;
#[cfg(test)]
mod tests;
pub mod theory;
