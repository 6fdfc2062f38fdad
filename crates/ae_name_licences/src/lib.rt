//! Which `solve` lines a journal admits for names whose values are in step with it, and which widths it licenses.
#![tactic(auto)]

pub mod laws;
