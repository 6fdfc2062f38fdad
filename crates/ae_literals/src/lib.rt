//! Assumed literals: what they say of the names of a store, and which of them isn't met by representatives.
#![tactic(auto)]

mod atoms;
mod constructors;
mod equations;
mod integers;
pub mod laws;
mod said;
mod saying;
mod unmet;

pub use integers::is_whole;
pub use said::Said;
pub use saying::said_of;
pub use unmet::{Unmet, first_unmet};
