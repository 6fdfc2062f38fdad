//! A solver that begins with clauses.
#![tactic(auto)]

mod starting;

pub use starting::started;
