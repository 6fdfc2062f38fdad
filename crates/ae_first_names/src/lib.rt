//! The names that a search begins with. These functions do nothing: their contracts are theorems.
#![tactic(auto)]

pub mod laws;
