//! The least names that are alike, in one pass: names are put into buckets by a number of their values.
#![tactic(auto)]

mod buckets;
mod keys;
mod least;

pub use least::least_names;
