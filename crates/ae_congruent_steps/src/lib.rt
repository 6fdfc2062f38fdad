//! The step that two applications of one head are equal whose arguments steps equate.
#![tactic(auto)]

mod congruent;

pub use congruent::state_congruent;
