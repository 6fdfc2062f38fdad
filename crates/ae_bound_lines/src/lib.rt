//! Kept rows as rows of a journal: which lines of their combinations are legal, and which widths are licensed.
#![tactic(auto)]

pub mod laws;
