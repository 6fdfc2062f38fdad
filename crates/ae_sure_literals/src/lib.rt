//! Which literals of a search's trail surely stand.
#![tactic(auto)]

mod closing;
mod given;
mod search;
mod sure;

pub use search::sure_in_search;
pub use sure::sure_literals;
