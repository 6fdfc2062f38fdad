//! What a state holds of the values of names, read and compared: values are made of numbers and leaves of names, which stand in persistent maps.
#![tactic(auto)]

mod alike;
mod changes;
mod once;
mod patterns;
mod representatives;
mod table;
mod versions;

pub use patterns::{Entry, Pattern};
pub use table::{Shared, Values};
