//! Which matches were instantiated.
#![tactic(auto)]

pub mod instances;
