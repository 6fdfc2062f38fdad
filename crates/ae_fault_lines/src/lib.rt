//! The lines by which texts without a typing are refused.
#![tactic(auto)]

mod lines;
mod sorts;
mod types;

pub use lines::fault_text;
