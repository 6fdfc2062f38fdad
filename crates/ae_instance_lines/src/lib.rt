//! Lines that note instances, and the lines of a proof that state their clauses.
#![tactic(auto)]

pub mod laws;
pub mod lines;
