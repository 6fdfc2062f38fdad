//! Descent of multisets of names: by names put for names, and by rules.
#![tactic(auto)]

pub mod laws;
