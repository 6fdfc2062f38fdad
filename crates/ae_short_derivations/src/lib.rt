//! Derivations made short: of the steps that a step rests on, a step that says that a term is itself rests on nothing, and one that says what an earlier
//! one says is left out.
#![tactic(auto)]

mod copies;
mod renaming;
mod shortening;
mod sides;
mod slots;

pub use shortening::{Short, shortened};
