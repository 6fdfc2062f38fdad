//! The words of the command line.
#![tactic(auto)]

mod command;
pub mod laws;
pub mod options;
mod reading;
pub mod words;
