//! When what is held of the values of names fits the terms of a store, and why a change of values is refused.
#![tactic(auto)]

mod refusals;

pub use refusals::Refused;
