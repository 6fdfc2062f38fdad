//! Numerals in lowest terms stay so in what is made of formulas and terms.
#![tactic(auto)]

mod laws;

pub use laws::{
    clauses_keep_numerals, parts_keep_numerals, problems_keep_numerals, putting_keeps_numerals,
};
