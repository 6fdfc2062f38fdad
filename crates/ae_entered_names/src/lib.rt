//! Names that enter a search: a place in the index, and the clauses of enumerations.
#![tactic(auto)]

mod choices;
mod entering;

pub use entering::enter_names;
