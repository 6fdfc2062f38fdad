//! What is said.
use ae_prooftext::{put, put_number};
use std::alloc::AllocError;

/// How a saturation ended.
#[derive(Clone, Copy, Debug, PartialEq, Eq)]
pub enum Answer {
    /// Nothing is left to do; so many rules stand.
    Complete(usize),
    /// The literals contradict each other; so many counted lines were noted.
    Contradictory(usize),
    /// The journal is full.
    Full,
    /// A number leaves the limits.
    Wide,
}

/// Puts numbers with what they are.
pub fn put_numbers(out: &mut Vec<u8>, what: &[u8], numbers: &[usize]) -> Result<(), AllocError> {
    put(out, what)?;
    for number in numbers {
        put(out, b" ")?;
        put_number(out, *number)?;
    }
    put(out, b"\n")
}
