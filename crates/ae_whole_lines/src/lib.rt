//! Laws of texts as whole lines: a line break behind a text changes neither its tokens nor its problem.
#![tactic(auto)]

mod laws;

pub use laws::{inputs_are_parted, whole_lines_change_nothing};
