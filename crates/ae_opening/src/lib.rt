//! Opening the blocks whose terms a search asks for.
#![tactic(auto)]

mod asking;
pub mod laws;
mod opening;

pub use asking::{is_opened, next_unopened};
pub use opening::{FreshLine, OpenedBlocks, open_block};
