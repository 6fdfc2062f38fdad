//! The lines that altac writes beside the answers of goals: why a text is refused, and where.
#![tactic(auto)]

mod laws;
mod lines;
mod refusal;

pub use laws::one_place;
pub use lines::{Place, place_of, refusal_text};
pub use refusal::Refusal;
