//! The axioms of a lawful problem stay well sorted where sorts are put for their type variables.
#![tactic(auto)]

pub mod laws;
