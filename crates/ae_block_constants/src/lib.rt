//! The constants of the blocks that a search opened.
#![tactic(auto)]

pub mod laws;
mod opened;

pub use opened::Opened;
