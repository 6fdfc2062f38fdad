//! Blocks that were opened.
use ae_core::formulas::Formula;

/// A block whose variables got constants of their own, numbered from the first one on, in the order of the variables.
#[derive(Drop)]
pub struct Opened {
    pub formula: Formula,
    pub first: usize,
}
