//! The search for a goal, over any theory.
#![tactic(auto)]

mod searching;
mod starting;

pub use searching::search;
pub use starting::named_store;
