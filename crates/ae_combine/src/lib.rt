//! The rewriting state: completion modulo linear arithmetic and records, as a theory.
#![tactic(auto)]

mod state;

pub use state::{Mark, State};
