//! The index of names by what they apply stays right where a store grows.
#![tactic(auto)]

pub mod laws;
