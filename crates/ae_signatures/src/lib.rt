//! Copies of signatures.
#![tactic(auto)]

mod copies;

pub use copies::copy_signature;
