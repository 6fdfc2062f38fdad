//! A search in rounds that has nothing left to do shows a saturated state.
#![tactic(auto)]

pub mod laws;
