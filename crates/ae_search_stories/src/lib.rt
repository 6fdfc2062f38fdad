//! The story of a search for any goal, which was stopped, is a legal journal.
#![tactic(auto)]

pub mod laws;
