//! Changes of rules and of waiting equations, with their steps: representatives put for names, and reduction.
#![tactic(auto)]

mod rights;
mod sides;
mod waiting;

pub use rights::{reduce_right, rename_right};
pub use sides::{reduced_side, renamed_side};
pub use waiting::{ReducedEquation, reduced_equation};
