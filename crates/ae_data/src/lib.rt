//! Values of records, and constructors of enumerations.
#![tactic(auto)]

pub mod constructors;
pub mod copies;
pub mod enumerations;
pub mod laws;
pub mod records;
