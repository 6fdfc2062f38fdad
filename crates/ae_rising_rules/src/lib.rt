//! The rules that a rewriting state shows can be written.
#![tactic(auto)]

mod laws;

pub use laws::held_rules_are_writable;
