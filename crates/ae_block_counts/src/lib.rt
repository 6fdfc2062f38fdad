//! How many quantifiers are left to open: the number that falls where a search opens a block.
#![tactic(auto)]

pub mod laws;
