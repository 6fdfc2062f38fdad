//! The program's top call.
#![tactic(auto)]

mod checking;
mod demo;
mod goals;
pub mod laws;
mod program;
mod reasons;
mod texts;

pub use program::{INPUT_LIMIT, Status, run};
