//! Typed trees as terms and formulas: the rules of elaboration, applied down the nodes.
#![tactic(auto)]

mod answers;
mod atoms;
mod connectives;
mod places;
mod records;
mod release;
mod sorts;
mod terms;
mod translation;
mod variables;

pub use answers::both;
pub use places::{cases_at, formula_at};
pub use release::release_formula;
pub use translation::triggers_at;
