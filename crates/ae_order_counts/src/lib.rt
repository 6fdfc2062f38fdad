//! How many orders of two terms are open: the number that falls where a search asks for the order of two numbers.
#![tactic(auto)]

pub mod laws;
