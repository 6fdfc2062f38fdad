//! What the equations of steps follow from. Laws alone.
#![tactic(auto)]

pub mod laws;
