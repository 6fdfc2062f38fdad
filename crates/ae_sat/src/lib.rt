//! Search for literals that make clauses true, over any theory.
#![tactic(auto)]

pub mod choose;
pub mod contradictions;
pub mod derive;
pub mod expand;
pub mod laws;
pub mod marking;
pub mod propagator;
pub mod run;
pub mod solver;
pub mod tell;
