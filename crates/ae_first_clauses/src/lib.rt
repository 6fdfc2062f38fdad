//! What a search for a goal begins with.
#![tactic(auto)]

mod beginning;
pub mod laws;

pub use beginning::{FirstClauses, begin, keep_line};
