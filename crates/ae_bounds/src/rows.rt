//! Rows.
use ae_num::forms::Lin;

/// Where a row comes from.
#[derive(Clone, Copy, Debug, PartialEq, Eq)]
pub enum Origin {
    /// It was assumed under this tag.
    Assumed(usize),
    /// It is the combination of the rows of these numbers, from 0 in the order of entry: the name that it cancels has a
    /// positive factor in the first and a negative one in the second.
    Combined { lower: usize, upper: usize },
}

/// What a row was before it was rounded: `lin >= 0`, or `lin > 0` where `strict`.
#[derive(Debug, Drop)]
pub struct Unrounded {
    pub lin: Lin,
    pub strict: bool,
}

/// `lin >= 0`, or `lin > 0` where `strict`.
#[derive(Debug, Drop)]
pub struct Row {
    pub lin: Lin,
    pub strict: bool,
    /// Its sides have the sort `int`, and so have the names in it.
    pub integral: bool,
    /// What it was before it was rounded, where it was.
    pub unrounded: Option<Unrounded>,
    /// Of a row that was assumed: whether a combination that is a positive multiple of it is left out. Each combination counts.
    pub counts: bool,
    pub from: Origin,
}
