//! What a sweep over names and rules finds left to do, and how it is taken up.
#![tactic(auto)]

mod congruences;
mod coupling;
mod gaps;
mod joins;
mod openings;
mod orders;
mod overlaps;
mod retaking;
mod unpaired;
mod waiting;

pub use ae_orienting::first_waiting;
pub use gaps::take_up_gap;
