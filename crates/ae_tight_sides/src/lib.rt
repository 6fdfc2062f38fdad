//! The two terms whose order a row of a tight sum asks for.
#![tactic(auto)]

pub mod sides;
