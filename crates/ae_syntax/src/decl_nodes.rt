//! Nodes of declarations, each made of its parts, with its place.

ghost use Rattle.std.specs.Prelude.{◌≡◌};
ghost use Rattle.ae_syntax.specs.Parts as part;

use crate::decls::{Decl, DeclKind, SymbolResult, TypedName};
use crate::exprs::Expr;
use crate::nodes::{cover, span};
use crate::spans::{List, Span};
use crate::types::WrittenType;
use ae_lex::Token;
use std::alloc::Global;

/// A name with its type.
pub fn typed_name(name: Token, sort: WrittenType) -> TypedName
    ensures { result ≡ part.typed_name name sort }
{
    TypedName {
        span: cover(span(name), sort.span),
        name: span(name),
        sort,
    }
}

/// A type as the result of a symbol.
pub fn sort_result(sort: WrittenType) -> SymbolResult
    ensures { result ≡ part.a_sort sort }
{
    SymbolResult {
        span: sort.span,
        sort: Some(sort),
    }
}

/// The word `prop` as the result of a symbol.
pub fn prop_result(word: Token) -> SymbolResult
    ensures { result ≡ part.prop_at word }
{
    SymbolResult {
        span: span(word),
        sort: None,
    }
}

/// A type without a definition.
pub fn abstract_type(alloc: Global, word: Token, params: List<Span>, name: Token) -> Decl
    ensures { result ≡ part.abstract_type word params name }
{
    let kind = DeclKind::Type {
        params,
        name: span(name),
        fields: List::new(alloc),
    };
    Decl {
        span: cover(span(word), span(name)),
        kind,
    }
}

/// A type of records.
pub fn record_type(
    word: Token,
    params: List<Span>,
    name: Token,
    fields: List<TypedName>,
    close: Token,
) -> Decl
    ensures { result ≡ part.record_type word params name fields close }
{
    let kind = DeclKind::Type {
        params,
        name: span(name),
        fields,
    };
    Decl {
        span: cover(span(word), span(close)),
        kind,
    }
}

// The last of these places, or this one where there is none.
fn last_or(first: Span, places: &[Span]) -> Span
    ensures { result ≡ part.last_or first places.now }
{
    match places {
        [] => first,
        [.., last] => *last,
    }
}

/// A type with its constructors.
pub fn enumeration(word: Token, name: Token, constructors: List<Span>) -> Decl
    ensures { result ≡ part.enumeration word name constructors }
{
    let end = last_or(span(word), constructors.as_slice());
    let kind = DeclKind::Enumeration {
        name: span(name),
        constructors,
    };
    Decl {
        span: cover(span(word), end),
        kind,
    }
}

/// Symbols with their sorts.
pub fn logic_of(
    word: Token,
    ac: bool,
    names: List<Span>,
    args: List<WrittenType>,
    result_sort: SymbolResult,
) -> Decl
    ensures { result ≡ part.logic_of word ac names args result_sort }
{
    let place = cover(span(word), result_sort.span);
    let kind = DeclKind::Logic {
        ac,
        names,
        args,
        result: result_sort,
    };
    Decl { span: place, kind }
}

/// A defined function.
pub fn function_of(
    word: Token,
    name: Token,
    formals: List<TypedName>,
    sort: WrittenType,
    body: Expr,
) -> Decl
    ensures { result ≡ part.function_of word name formals sort body }
{
    let place = cover(span(word), body.span);
    let kind = DeclKind::Function {
        name: span(name),
        formals,
        result: sort,
        body,
    };
    Decl { span: place, kind }
}

/// A defined predicate.
pub fn predicate_of(word: Token, name: Token, formals: List<TypedName>, body: Expr) -> Decl
    ensures { result ≡ part.predicate_of word name formals body }
{
    let place = cover(span(word), body.span);
    let kind = DeclKind::Predicate {
        name: span(name),
        formals,
        body,
    };
    Decl { span: place, kind }
}

/// An axiom.
pub fn axiom_of(word: Token, name: Token, body: Expr) -> Decl
    ensures { result ≡ part.axiom_of word name body }
{
    let place = cover(span(word), body.span);
    let kind = DeclKind::Axiom {
        name: span(name),
        body,
    };
    Decl { span: place, kind }
}

/// A goal.
pub fn goal_of(word: Token, name: Token, body: Expr) -> Decl
    ensures { result ≡ part.goal_of word name body }
{
    let place = cover(span(word), body.span);
    let kind = DeclKind::Goal {
        name: span(name),
        body,
    };
    Decl { span: place, kind }
}
