//! What the inequalities come to that are true in a search with nothing left to do.
#![tactic(auto)]

mod solving;

pub use ae_kept_orders::{KeptRows, Solved, sides};
pub use solving::solve_orders;
