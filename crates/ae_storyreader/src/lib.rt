//! Reads the texts of journals and of widths with their journals: each exactly from its text, or the first byte that no text continues.
#![tactic(auto)]

mod lines;
mod stories;
mod widths;

pub use stories::{read_story, read_story_at};
pub use widths::{NumberText, read_number, read_number_at};
