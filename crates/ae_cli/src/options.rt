//! Options: what the words of the command line may state.
use ae_search_options::limits::Limits;
use std::alloc::AllocError;
use thiserror::Error;

/// What the program is to do.
#[derive(Clone, Copy, Debug, PartialEq, Eq)]
pub enum Mode {
    /// Answer the goals of a problem.
    Prove,
    /// Check an output for a problem.
    Check,
    /// Answer this many goals of its own, from 1 to 10,000.
    Demo(u32),
}

/// What the words state.
#[derive(Clone, Copy, Debug, PartialEq, Eq)]
pub struct Options {
    pub limits: Limits,
    /// Which picks are used: 0 for `first`, 1 for `last`, 2 for `mixed`.
    pub which: usize,
    pub mode: Mode,
}

/// Why there are no options.
#[derive(Debug, Drop, Error)]
pub enum CliFail {
    /// The words are wrong.
    #[error("usage")]
    Usage,
    /// There was no memory to read them.
    #[error(transparent)]
    Memory(#[from(alloc)] AllocError),
}
