//! The combinations that are left after kept rows were closed: of rows over integers, those of what they were before they were rounded.
#![tactic(auto)]

mod combining;
pub mod laws;
pub mod rest;
mod starting;
