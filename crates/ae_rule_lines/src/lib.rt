//! The lines that stand in a journal, in step with rules, pairs and waiting equations: what keeps them so, and which lines may come.
#![tactic(auto)]

pub mod laws;
