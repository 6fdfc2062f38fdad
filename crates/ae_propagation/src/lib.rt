//! Unit propagation: what clauses make true in which all literals but one are false, by plain scans and by lists of
//! the clauses that have a literal.
#![tactic(auto)]

mod coded;
mod codes;
mod occurrences;
pub mod propagation;
pub mod settle;
