//! Which states have a text: those whose system is completed and whose literals are closed and well sorted over a lawful signature, with numbers in their limits.
#![tactic(auto)]

mod laws;

pub use laws::{states_have_texts, symbols_have_texts};
