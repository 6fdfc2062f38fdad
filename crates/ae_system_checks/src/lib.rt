//! Examples of completed systems, and what each clause of their definition refuses.
#![tactic(auto)]

pub mod laws;
pub mod whole;
