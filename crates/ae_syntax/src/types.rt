//! Types as they are written.

use crate::spans::{List, Span};

/// A written type, with its place.
#[derive(Drop)]
#[cycle(written_type)]
pub struct WrittenType {
    pub span: Span,
    pub kind: TypeKind,
}

/// What a written type is.
#[derive(Drop)]
#[cycle(written_type)]
pub enum TypeKind {
    Int,
    Real,
    Bool,
    Unit,
    /// A type variable, with its `'`; the type's place is its name.
    Var,
    /// A type's name with the types before it: none, one, or two and more in round brackets.
    Named { name: Span, args: List<WrittenType> },
}
