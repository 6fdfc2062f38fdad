//! The texts of linear forms and of values: how they are spelled, which of them have a text, and that reading them is exact.
#![tactic(auto)]

mod laws;

pub use laws::{form_texts, value_texts, values_with_texts};
