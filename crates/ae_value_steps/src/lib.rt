//! Steps that state the values of names, and what follows from values: each call adds one step, whose factors are denominators and factors of values.
#![tactic(auto)]

mod adding;
mod changes;
mod names;
mod numbers;
mod sums;
mod zeros;

pub use adding::Valued;
pub use changes::{Before, state_covered, state_put};
pub use names::{state_chained, state_itself, state_turned};
pub use sums::{state_difference, state_multiple, state_numeral, state_own, state_sum};
pub use zeros::{state_apart, state_equal, state_solved};
