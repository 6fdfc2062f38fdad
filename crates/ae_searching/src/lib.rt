//! What a search keeps while its names, its clauses and its journal grow between two runs of the solver.
#![tactic(auto)]

pub mod adding;
pub mod bringing;
pub mod contradictions;
pub mod growing;
pub mod levels;
pub mod returning;
pub mod running;
pub mod standing;
