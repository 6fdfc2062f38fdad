//! Names for the terms that a search begins with.
#![tactic(auto)]

mod naming;

pub use naming::name_clauses;
