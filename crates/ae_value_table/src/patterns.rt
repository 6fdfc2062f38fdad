//! What values are made of.
use ae_core::lists::List;
use ae_core::terms::Sort;
use ae_num::forms::Name;

/// What the value of a name is made of.
#[derive(Drop)]
pub enum Pattern {
    /// The number of this name.
    Number(Name),
    /// The leaf of this name.
    Leaf(Name),
    /// The values of this name's fields, in the order of its type.
    Fields { name: Name, fields: List<Pattern> },
}

/// What is known of a name for good.
#[derive(Drop)]
pub struct Entry {
    pub sort: Sort,
    pub pattern: Pattern,
}
