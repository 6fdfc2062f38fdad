//! One of a few words at a place, and what is said of the reader of a whole text.
#![tactic(auto)]

mod choices;

pub use choices::behind_word;
