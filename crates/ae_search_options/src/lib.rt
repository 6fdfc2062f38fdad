//! What a search is bounded by, and what it chooses by.
#![tactic(auto)]

pub mod limits;
pub mod picks;
