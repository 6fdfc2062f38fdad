//! Completed systems, told by running: whether the names of AC symbols join in a system, and whether it is completed.
#![tactic(auto)]

pub mod completed;
pub mod joins;
