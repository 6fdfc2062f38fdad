//! Reads sorts, numerals and terms over a signature: each value exactly from its text, or the first byte that no text continues.
#![tactic(auto)]

mod heads;
mod index;
mod names;
mod numerals;
mod sorts;
mod tables;
mod terms;

pub use names::{Names, read_named};
pub use numerals::read_numeral;
pub use sorts::{read_sort, read_sort_row, read_sorts};
pub use tables::Tables;
pub use terms::{read_arguments, read_term};
