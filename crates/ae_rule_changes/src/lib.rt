//! What the calls of ae_monoid change, for lines that are in step with its rules.
#![tactic(auto)]

pub mod laws;
