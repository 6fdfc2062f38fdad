//! Which instances are owed between two rounds.
#![tactic(auto)]

mod asked;
mod finding;
mod lowering;
mod matching;
mod owed;
mod owning;
mod saying;

pub use owed::next_owed;
