//! Laws of the problems of typed files: they are lawful.
#![tactic(auto)]

mod laws;

pub use laws::{formulas_are_sorted, problems_are_lawful};
