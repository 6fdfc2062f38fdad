//! Blocks that are opened: their generations, what their clauses bring, and these clauses in a search.
#![tactic(auto)]

mod adding;
mod bringing;
mod generations;

pub use adding::add_block;
