//! What a search ends with can be written: its refutations and the states in which nothing is left to do.
#![tactic(auto)]

pub mod laws;
