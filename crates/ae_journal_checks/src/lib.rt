//! Examples of what the definitions of journals allow and refuse.
#![tactic(auto)]

pub mod laws;
