//! What holds where names are taken in one after another: laws alone.
#![tactic(auto)]

pub mod laws;
