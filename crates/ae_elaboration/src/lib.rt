//! The rules of elaboration as functions on terms and formulas: how what is written in a text, and has no form of its own
//! among formulas, is written with what has one.
#![tactic(auto)]

pub mod elaboration;
pub mod numbering;
pub mod variables;
