//! How the matches of a trigger are found: bindings that its terms ask for, a test of names, and laws of both.
#![tactic(auto)]

pub mod bindings;
pub mod laws;
pub mod sorts;
