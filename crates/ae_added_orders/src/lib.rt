//! The clause that two numbers are equal, or one is below the other, in a search.
#![tactic(auto)]

mod adding;

pub use adding::add_order;
