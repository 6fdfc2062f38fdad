//! Parts an input that is to be checked into the problem and the output.
#![tactic(auto)]

pub mod laws;
mod separator;

pub use separator::{Parted, parting};
