//! Making the instances that are owed.
#![tactic(auto)]

mod batch;
mod lines;
mod making;
mod noting;

pub use batch::make_owed;
