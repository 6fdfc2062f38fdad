//! Laws of typing: there is always an answer, and the size of a formula is told from its typed tree.
#![tactic(auto)]

mod laws;

pub use laws::{conditions_are_answered, every_file_is_answered, sizes_are_told, unifiers_exist};
