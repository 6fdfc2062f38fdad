//! Steps of saturation that change values: the `solve` line that is noted, and what holds afterwards of what is held.
#![tactic(auto)]

mod noting;

pub use noting::note_solution;
