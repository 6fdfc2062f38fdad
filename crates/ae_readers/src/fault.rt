//! Why a text wasn't read.

#[derive(Clone, Copy, PartialEq, Eq)]
pub enum Fault {
    /// The first byte that no text continues stands at this place, or the text ends there too early.
    At(usize),
    /// A numeral outside the limits begins at this place, before any wrong byte.
    WideNumber(usize),
    /// There is no memory for what the text says.
    Memory,
}
