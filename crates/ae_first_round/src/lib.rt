//! What a search in rounds begins with.
#![tactic(auto)]

mod beginning;
mod blocks;
mod naming;

pub use beginning::begin;
