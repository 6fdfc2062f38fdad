//! The search for a goal, in turns: the solver runs, and where it has nothing left to do, blocks are opened, or else orders are asked for, or else instances are
//! made, until nothing is left.
#![tactic(auto)]

mod answering;
mod instantiating;
pub mod progress;
mod proving;
mod rounds;
mod solving;
mod steps;
pub mod turns;

pub use proving::prove;
