//! Where a type is written.

use crate::names::Names;

/// Where a type is written.
#[derive(Drop)]
pub enum Ground<'a> {
    /// In an expression, or with a symbol: its type variables are those of the declaration.
    Free,
    /// In a field of the record type of this number: its type variables are the type's parameters.
    InField { params: Names<'a>, own: usize },
}
