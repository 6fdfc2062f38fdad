//! Which journals, and which widths with their journals, have a text: the legal ones of a lawful problem, with numbers in their limits.
#![tactic(auto)]

mod laws;

pub use laws::{journals_have_texts, widths_have_texts};
