//! What a search derives for a goal of the ground fragment is a ground proof. These functions do nothing: their contracts are theorems.
#![tactic(auto)]

pub mod laws;
