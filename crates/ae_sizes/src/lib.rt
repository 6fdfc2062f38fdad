//! Which formulas are within the limits of a declaration, told by counting: no formula is built, and what stands once among the
//! typed trees is counted once, however often it is used.
#![tactic(auto)]

mod measures;
mod node_sizes;
mod small;
mod sorts;
mod stands;
mod weights;

pub use small::{is_small_at, small_formulas};
