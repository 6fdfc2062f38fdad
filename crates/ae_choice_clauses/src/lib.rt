//! What enumerations add to what a search begins with.
#![tactic(auto)]

mod adding;
pub mod laws;

pub use adding::add_choices;
