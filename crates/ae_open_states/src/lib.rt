//! The saturated state that a search shows which has nothing left to do.
#![tactic(auto)]

pub mod laws;
mod showing;

pub use showing::open_state;
