//! Which terms have a number as their linear form, told exactly: by fractions of any size.
#![tactic(auto)]

pub mod forms;
pub mod laws;
pub mod rules;
pub mod table;
