//! Opening the blocks of a search that ask for terms.
#![tactic(auto)]

mod opening;

pub use opening::open_blocks;
