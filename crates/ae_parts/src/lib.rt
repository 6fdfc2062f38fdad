//! Reads the parts of goals in an output: what was answered to each and what was found, exactly from their text, or the first byte that no such text continues.
#![tactic(auto)]

mod goals;
mod laws;
mod limits;
mod parts;

pub use goals::read_parts;
pub use laws::part_texts;
pub use parts::Part;
