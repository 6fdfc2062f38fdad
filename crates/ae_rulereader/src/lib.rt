//! Reads the symbols, sides and rules of states and journals: each exactly from its text, or the first byte that no text continues.
#![tactic(auto)]

mod rules;
mod symbols;
mod tables;

pub use rules::{read_rule, read_sides};
pub use symbols::read_symbol;
pub use tables::AcTables;
