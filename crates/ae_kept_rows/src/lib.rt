//! Rows of the inequalities of a trail, kept while the journal has no line more than at their last answer.
#![tactic(auto)]

pub mod kept;
pub mod solving;
