//! The formulas of a lawful problem's items are closed and well sorted.
#![tactic(auto)]

pub mod laws;
