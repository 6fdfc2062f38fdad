//! Typing of the declarations that have terms: axioms, goals, functions and predicates. Each becomes an axiom or a goal whose
//! formula stands among the nodes.
#![tactic(auto)]

mod defining;
pub mod definitions;
pub mod drafts;
mod formals;
pub mod statements;

pub use drafts::Draft;
