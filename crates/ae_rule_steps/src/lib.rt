//! Reduction of multisets with the steps that equate them.
#![tactic(auto)]

mod finding;
mod overlapping;
mod reducing;
mod turning;

pub use overlapping::overlap_stated;
pub use reducing::reduced;
pub use turning::Reached;
