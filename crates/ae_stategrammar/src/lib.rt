//! The texts of rules, states, journals and widths: how they are spelled, which of them have a text, and that reading them is exact.
#![tactic(auto)]

mod laws;

pub use laws::{number_texts, sides_texts, state_texts, story_texts, values_with_texts};
