//! Constants that are new: below a number stand those of all lines so far, and from it on a block may take its own.
#![tactic(auto)]

pub mod laws;
