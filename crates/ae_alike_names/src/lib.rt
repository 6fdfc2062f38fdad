//! Which names are the same, beside the terms of a system and beside a journal.
#![tactic(auto)]

pub mod laws;
