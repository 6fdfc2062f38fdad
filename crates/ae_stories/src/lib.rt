//! The story of a search that was stopped.
#![tactic(auto)]

pub mod laws;
mod telling;

pub use telling::story;
