//! Declarations, and a whole file.

use crate::exprs::Expr;
use crate::spans::{List, Span};
use crate::types::WrittenType;

/// A name with its type, as a field of a record or a formal parameter: `x : t`.
#[derive(Drop)]
pub struct TypedName {
    pub span: Span,
    pub name: Span,
    pub sort: WrittenType,
}

/// The result of declared symbols: a type, or `prop`, which is no sort.
#[derive(Drop)]
pub struct SymbolResult {
    pub span: Span,
    pub sort: Option<WrittenType>,
}

/// A declaration, with its place.
#[derive(Drop)]
pub struct Decl {
    pub span: Span,
    pub kind: DeclKind,
}

/// What a declaration is.
#[derive(Drop)]
pub enum DeclKind {
    /// A type with its parameters and, if it is a record type, its fields; else none.
    Type {
        params: List<Span>,
        name: Span,
        fields: List<TypedName>,
    },
    /// A type with its constructors.
    Enumeration {
        name: Span,
        constructors: List<Span>,
    },
    /// Symbols, with the sorts of their arguments.
    Logic {
        ac: bool,
        names: List<Span>,
        args: List<WrittenType>,
        result: SymbolResult,
    },
    Function {
        name: Span,
        formals: List<TypedName>,
        result: WrittenType,
        body: Expr,
    },
    Predicate {
        name: Span,
        formals: List<TypedName>,
        body: Expr,
    },
    Axiom {
        name: Span,
        body: Expr,
    },
    Goal {
        name: Span,
        body: Expr,
    },
}

/// The declarations of a text, in order.
#[derive(Drop)]
pub struct File {
    pub decls: List<Decl>,
}
