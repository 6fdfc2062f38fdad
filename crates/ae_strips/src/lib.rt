//! What names of fields come down to: a field of a written record to what stands in its place, and a field of what comes down to another name to
//! the same field of that one. Steps say so.
#![tactic(auto)]

mod fields;
pub mod laws;
mod saying;
mod stripping;

pub use fields::field_name;
pub use stripping::{Stripped, strip};
