//! Rows that a search keeps from one round of its inequalities to the next.
#![tactic(auto)]

pub mod laws;

pub use ae_between_rounds::search::{Search, Task};
pub use ae_kept_rows::kept::KeptRows;
pub use ae_kept_rows::solving::{Solved, solve_rows};
pub use ae_literal_rows::comparing::sides;
