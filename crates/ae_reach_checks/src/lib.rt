//! Whether a goal is in the reach.
#![tactic(auto)]

mod formulas;
mod goals;

pub use goals::is_in_reach;
