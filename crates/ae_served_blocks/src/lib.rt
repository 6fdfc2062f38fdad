//! Where a search has nothing left to open, each literal that asks for terms has the literal of its body.
#![tactic(auto)]

pub mod laws;
