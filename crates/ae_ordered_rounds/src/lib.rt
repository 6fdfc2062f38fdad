//! A round of the inequalities: at a state where the solver has nothing left to do, and no block asks for terms, the order of two numbers comes in, or a
//! contradiction is learnt from, or there is a point.
#![tactic(auto)]

mod choosing;
pub mod laws;
mod meeting;
pub mod ordering;
pub mod orders;
mod pending;
