//! That numbers of something have 64 bits in whatever is in memory, so that what is writable keeps within the limits of its text.
#![tactic(auto)]

mod formulas;
mod lines;
mod numbers;
mod states;
mod stories;
mod terms;
mod texts;
mod values;

pub use states::state_counts;
pub use stories::{story_counts, width_counts};
pub use texts::proof_counts;
