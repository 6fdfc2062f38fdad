//! Typing of a file: its declarations in their order, each after those before it. A file has a most general typing, or it has
//! the fault of the first condition that has no solution together with those before it.
#![tactic(auto)]

mod declarations;
mod files;

pub use files::{TypedFile, typed_file};
