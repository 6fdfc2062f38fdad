//! Places in the text, and the lists and boxes of trees.

pub use ae_base::lists::{Boxed, List};

/// Bytes of the text: from `from` up to `to`, without the byte at `to`. Places have 32 bits, as in tokens.
#[derive(Clone, Copy, Debug, PartialEq, Eq)]
pub struct Span {
    pub from: u32,
    pub to: u32,
}
