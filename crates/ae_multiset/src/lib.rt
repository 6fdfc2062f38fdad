//! Multisets of names: their order, and how sets of rules rewrite them.
//!
//! The code takes and gives multisets as slices and vectors of names in rising order; each call is linear in
//! its arguments. The theory of rewriting is in the definitions, over any set of rules, and its theorems are
//! the contracts of `laws`.
#![tactic(auto)]

mod addition;
mod difference;
pub mod laws;
mod ordering;
mod overlap;
mod part;
mod spelling;
mod union;

pub use addition::sum;
pub use difference::minus;
pub use ordering::compare;
pub use overlap::common;
pub use part::part_of;
pub use spelling::spelled;
pub use union::union_;
