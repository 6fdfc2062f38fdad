//! `if` between terms, taken out of the atoms in which it stands.
#![tactic(auto)]

pub mod cases;
