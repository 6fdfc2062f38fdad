//! Laws of the numerals of typed files.
#![tactic(auto)]

mod laws;

pub use laws::typed_problems_have_lowest_numerals;
