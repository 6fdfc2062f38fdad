//! What the values of names are made of, by the sorts of their terms.
#![tactic(auto)]

mod entries;
mod patterns;

pub use entries::entry;
pub use patterns::pattern;
