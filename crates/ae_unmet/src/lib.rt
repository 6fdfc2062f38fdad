//! What assumed literals say that isn't met yet.
#![tactic(auto)]

mod conflicts;
mod literals;
mod saying;
mod stating;

pub use literals::take_up_unmet;
pub use saying::said_at;
