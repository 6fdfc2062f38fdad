//! Values of names in step with the lines of a journal.
#![tactic(auto)]

pub mod laws;
