//! What runs of the solver, and names for new clauses, keep of blocks and of their constants.
#![tactic(auto)]

pub mod laws;
