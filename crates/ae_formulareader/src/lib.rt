//! Reads the texts of formulas: each value exactly from its text, or the first byte that no text continues.
#![tactic(auto)]

mod formulas;
mod literals;
mod triggers;
mod words;

pub use formulas::{read_formula, read_positive};
pub use literals::{read_clause, read_literal};
pub use triggers::{read_square_terms, read_triggers};
