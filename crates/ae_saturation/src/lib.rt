//! Saturation of what is held: names are taken in, and turn after turn something is taken up, until nothing is left to do.
#![tactic(auto)]

mod lasting;
mod saturating;
mod turning;
mod upkeep;

pub use lasting::still_complete;
pub use saturating::saturate;
