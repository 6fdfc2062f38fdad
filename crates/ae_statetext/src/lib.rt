//! The texts of states, journals and widths: how their values are spelled over a signature, and what writes them.
#![tactic(auto)]

mod answers;
mod journals;
mod states;
mod values;

pub use answers::{answer_text, put_answer};
pub use journals::{put_number, put_story, write_number, write_story};
pub use states::{put_state, write_state};
