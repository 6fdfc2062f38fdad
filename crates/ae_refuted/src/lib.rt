//! The proof that a refuted search ends with.
#![tactic(auto)]

mod refuting;

pub use refuting::refutation;
