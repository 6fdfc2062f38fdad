//! Reads the texts of states: each exactly from its text, or the first byte that no text continues.
#![tactic(auto)]

mod lines;
mod points;
mod runs;
mod sections;
mod states;

pub use lines::read_literal_line;
pub use runs::read_name_lines;
pub use states::{read_state, read_state_at};
