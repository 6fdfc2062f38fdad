//! Rows with their derivations.
use ae_num::forms::Lin;
use ae_theory::theory::Derived;

/// `lin >= 0`, or `lin > 0` where `strict`, with lines of which the last says it.
#[derive(Drop)]
pub struct Row {
    pub lin: Lin,
    pub strict: bool,
    /// It is rounded as a row over integers: its sides have the sort `int`, and its names are opaque terms.
    pub integral: bool,
    /// By which whole number, above 0, `lin` is multiplied in the last line, whose right side less the left one this is.
    pub multiple: i128,
    /// Whether the sides of that line have the sort `real`, or `int`.
    pub real: bool,
    pub from: Derived,
}
