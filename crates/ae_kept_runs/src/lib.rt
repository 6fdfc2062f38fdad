//! What a run of the solver, or a block that is learnt from, leaves of a search.
#![tactic(auto)]

pub mod laws;
