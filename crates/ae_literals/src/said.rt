//! What literals say of the names of a store.
use ae_num::forms::Name;

/// What a literal says of the names of a store.
#[derive(Clone, Copy, Debug, PartialEq, Eq)]
pub enum Said {
    /// The terms of the two names are equal, or they aren't.
    Equal {
        positive: bool,
        left: Name,
        right: Name,
    },
    /// The predicate's application of this name is true, or it is false.
    Atom {
        positive: bool,
        name: Name,
    },
    /// Nothing: an inequality, or a formula with parts.
    Other,
}
