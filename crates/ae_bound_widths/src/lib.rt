//! The licences of the steps that make the point of kept rows.
#![tactic(auto)]

pub mod laws;
