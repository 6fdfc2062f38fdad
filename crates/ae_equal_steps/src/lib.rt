//! Steps by the values of names: that two names of one sort and one value are equal, what the leaf of a name is, and what its number.
#![tactic(auto)]

mod equal;
mod leaves;
mod numbers;
mod parts;
mod records;
mod said;

pub use equal::equal_step;
pub use leaves::leaf_step;
pub use numbers::number_step;
