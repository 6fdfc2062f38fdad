//! Values of integers that aren't whole: the first of them, and that the literals which it rests on can't hold together.
#![tactic(auto)]

mod fractions;
pub mod laws;

pub use fractions::first_fraction;
