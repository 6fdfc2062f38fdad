//! The rules of a state, which of them were paired, and the equations that wait to become rules.
#![tactic(auto)]

mod equations;
mod orienting;
mod pairs;
mod queue;
mod removing;
mod stale;
mod versions;

pub use equations::{Equations, Shared};
pub use queue::Waiting;
