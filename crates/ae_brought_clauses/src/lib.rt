//! Names and generations for what clauses bring, where blocks are opened.
#![tactic(auto)]

mod bringing;
mod fallen;

pub use bringing::bring_clause;
