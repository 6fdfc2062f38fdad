//! What a search keeps between two rounds, and when it has nothing left to do.
#![tactic(auto)]

pub mod search;
