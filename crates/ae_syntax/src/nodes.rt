//! Nodes, each made of its parts, with its place.

ghost use Rattle.std.specs.Prelude.{◌≡◌, IfOk, Some, None};
ghost use Rattle.ae_syntax.specs.Parts as part;

use crate::exprs::{BinaryOp, Expr, ExprKind, Group, Quantifier, Setting, Trigger};
use crate::spans::{Boxed, List, Span};
use crate::types::{TypeKind, WrittenType};
use ae_lex::Token;
use std::alloc::{AllocError, Global};

/// The place of a token.
pub fn span(token: Token) -> Span
    ensures { result ≡ part.span token }
{
    Span {
        from: token.from,
        to: token.to,
    }
}

/// From the start of the first to the end of the last.
pub fn cover(first: Span, last: Span) -> Span
    ensures { result ≡ part.cover first last }
{
    Span {
        from: first.from,
        to: last.to,
    }
}

/// An expression at a place.
pub fn expression(alloc: Global, span: Span, kind: ExprKind) -> Result<Expr, AllocError>
    ensures { IfOk result (λ e. e ≡ part.expression span kind) }
{
    let kind = Boxed::new(alloc, kind)?;
    Ok(Expr { span, kind })
}

/// Two expressions and the operator between them.
pub fn binary(alloc: Global, op: BinaryOp, left: Expr, right: Expr) -> Result<Expr, AllocError>
    ensures { IfOk result (λ e. e ≡ part.binary op left right) }
{
    let place = cover(left.span, right.span);
    expression(alloc, place, ExprKind::Binary { op, left, right })
}

/// `not` before an expression.
pub fn negation(alloc: Global, word: Token, body: Expr) -> Result<Expr, AllocError>
    ensures { IfOk result (λ e. e ≡ part.negation word body) }
{
    let place = cover(span(word), body.span);
    expression(alloc, place, ExprKind::Not(body))
}

/// `-` before an expression.
pub fn negative(alloc: Global, minus: Token, body: Expr) -> Result<Expr, AllocError>
    ensures { IfOk result (λ e. e ≡ part.negative minus body) }
{
    let place = cover(span(minus), body.span);
    expression(alloc, place, ExprKind::Negative(body))
}

/// A quantifier with its groups of variables, its triggers and its body.
pub fn quantified(
    alloc: Global,
    word: Token,
    quantifier: Quantifier,
    groups: List<Group>,
    triggers: List<Trigger>,
    body: Expr,
) -> Result<Expr, AllocError>
    ensures { IfOk result (λ e. e ≡ part.quantified word quantifier groups triggers body) }
{
    let place = cover(span(word), body.span);
    let kind = ExprKind::Quantified {
        quantifier,
        groups: Boxed::new(alloc, groups)?,
        triggers: Boxed::new(alloc, triggers)?,
        body,
    };
    expression(alloc, place, kind)
}

/// `let name = value in body`.
pub fn let_in(
    alloc: Global,
    word: Token,
    name: Token,
    value: Expr,
    body: Expr,
) -> Result<Expr, AllocError>
    ensures { IfOk result (λ e. e ≡ part.let_in word name value body) }
{
    let place = cover(span(word), body.span);
    let name = span(name);
    expression(alloc, place, ExprKind::Let { name, value, body })
}

/// `if condition then positive else negative`.
pub fn conditional(
    alloc: Global,
    word: Token,
    condition: Expr,
    positive: Expr,
    negative: Expr,
) -> Result<Expr, AllocError>
    ensures { IfOk result (λ e. e ≡ part.conditional word condition positive negative) }
{
    let place = cover(span(word), negative.span);
    let kind = ExprKind::If {
        condition,
        positive,
        negative,
    };
    expression(alloc, place, kind)
}

/// A field of a record.
pub fn field_of(alloc: Global, base: Expr, field: Token) -> Result<Expr, AllocError>
    ensures { IfOk result (λ e. e ≡ part.field_of base field) }
{
    let place = cover(base.span, span(field));
    let field = span(field);
    expression(alloc, place, ExprKind::Field { base, field })
}

/// A name without arguments.
pub fn bare(alloc: Global, name: Token) -> Result<Expr, AllocError>
    ensures { IfOk result (λ e. e ≡ part.bare name) }
{
    let name = span(name);
    let args = List::new(alloc);
    expression(alloc, name, ExprKind::Apply { name, args })
}

/// A name with its arguments.
pub fn applied(
    alloc: Global,
    name: Token,
    args: List<Expr>,
    close: Token,
) -> Result<Expr, AllocError>
    ensures { IfOk result (λ e. e ≡ part.applied name args close) }
{
    let place = cover(span(name), span(close));
    let name = span(name);
    expression(alloc, place, ExprKind::Apply { name, args })
}

/// An expression in round brackets.
pub fn bracketed(alloc: Global, opener: Token, body: Expr, close: Token) -> Result<Expr, AllocError>
    ensures { IfOk result (λ e. e ≡ part.bracketed opener body close) }
{
    let place = cover(span(opener), span(close));
    expression(alloc, place, ExprKind::Bracketed(body))
}

/// An expression with its sort, in round brackets.
pub fn ascribed(
    alloc: Global,
    opener: Token,
    body: Expr,
    sort: WrittenType,
    close: Token,
) -> Result<Expr, AllocError>
    ensures { IfOk result (λ e. e ≡ part.ascribed opener body sort close) }
{
    let place = cover(span(opener), span(close));
    let sort = Boxed::new(alloc, sort)?;
    expression(alloc, place, ExprKind::Ascribed { body, sort })
}

/// A whole `distinct`.
pub fn distinct_of(
    alloc: Global,
    word: Token,
    terms: List<Expr>,
    close: Token,
) -> Result<Expr, AllocError>
    ensures { IfOk result (λ e. e ≡ part.distinct_of word terms close) }
{
    let place = cover(span(word), span(close));
    expression(alloc, place, ExprKind::Distinct(terms))
}

/// A record with its fields.
pub fn record_of(
    alloc: Global,
    opener: Token,
    settings: List<Setting>,
    close: Token,
) -> Result<Expr, AllocError>
    ensures { IfOk result (λ e. e ≡ part.record_of opener settings close) }
{
    let place = cover(span(opener), span(close));
    expression(alloc, place, ExprKind::Record(settings))
}

/// A record with some fields changed.
pub fn update_of(
    alloc: Global,
    opener: Token,
    base: Expr,
    settings: List<Setting>,
    close: Token,
) -> Result<Expr, AllocError>
    ensures { IfOk result (λ e. e ≡ part.update_of opener base settings close) }
{
    let place = cover(span(opener), span(close));
    expression(alloc, place, ExprKind::Update { base, settings })
}

/// A field's name with its value.
pub fn setting_of(name: Token, value: Expr) -> Setting
    ensures { result ≡ part.setting_of name value }
{
    Setting {
        span: cover(span(name), value.span),
        name: span(name),
        value,
    }
}

// The first of some names.
fn first_name(names: &[Span]) -> Span
    ensures { result ≡ part.names_first names.now }
{
    match names {
        [] => Span { from: 0, to: 0 },
        [first, ..] => *first,
    }
}

/// Variables with their sort.
pub fn group_of(names: List<Span>, sort: WrittenType) -> Group
    ensures { result ≡ part.group_of names sort }
{
    Group {
        span: cover(first_name(names.as_slice()), sort.span),
        names,
        sort,
    }
}

// The place of the last of some terms, or one given.
fn last_place(terms: &[Expr], place: Span) -> Span
    ensures { result ≡ part.last_term_or place terms.now }
{
    let mut last = place;
    for term in terms {
        last = term.span;
    }
    last
}

// The place of terms that follow each other.
fn terms_span(terms: &[Expr]) -> Span
    ensures { result ≡ part.terms_span terms.now }
{
    match terms {
        [] => Span { from: 0, to: 0 },
        [first, rest @ ..] => cover(first.span, last_place(rest, first.span)),
    }
}

/// Terms that must match together.
pub fn trigger_of(terms: List<Expr>) -> Trigger
    ensures { result ≡ part.trigger_of terms }
{
    Trigger {
        span: terms_span(terms.as_slice()),
        terms,
    }
}

/// A type's name after the types that begin at a place.
pub fn named_after(first: Span, args: List<WrittenType>, name: Token) -> WrittenType
    ensures { result ≡ part.named_after first args name }
{
    WrittenType {
        span: cover(first, span(name)),
        kind: TypeKind::Named {
            name: span(name),
            args,
        },
    }
}
