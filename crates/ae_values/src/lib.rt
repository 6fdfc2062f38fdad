//! A number or a name is put for a name in the values of all names, and the steps of these are carried on.
#![tactic(auto)]

mod leaves;
mod numbers;
mod occurrences;
mod widths;

pub use leaves::put_leaf;
pub use numbers::put_number;
