//! Reading of declarations.

ghost use Rattle.std.specs.Prelude.{◌≡◌, ◌≤◌, ◌+◌, ◌-◌, [], ◌∷◌, ◌++◌, None, IfSome, IfNone, length};
ghost use Rattle.ae_lex.specs.declared.kinds.TokenKind.TheVariants as kind;
ghost use Rattle.ae_lex.specs.declared.kinds.Sign.TheVariants as sign;
ghost use Rattle.ae_syntax.specs.declared.cursor.TheConstants.{DEPTH_LIMIT};
ghost use Rattle.ae_syntax.specs.Grammar as grammar;
ghost use Rattle.ae_syntax.specs.Inner.Machine as machine;
ghost use Rattle.ae_syntax.specs.Parts as part;
ghost use Rattle.ae_syntax.specs.Inner.Reading.{Answered, IsAt, Lacks};
ghost use Rattle.ae_syntax.specs.Inner.ReadingDecls.{DeclRead, Turns, TypedsRead};

use crate::cursor::{stands_sign, stands_word, take, take_sign, take_word};
use crate::decl_nodes::{
    abstract_type, axiom_of, enumeration, function_of, goal_of, logic_of, predicate_of,
    prop_result, record_type, sort_result, typed_name,
};
use crate::decls::{Decl, SymbolResult, TypedName};
use crate::exprs::Expr;
use crate::faults::Refusal;
use crate::nodes::span;
use crate::read_exprs::read_expr;
use crate::read_items::read_item_list;
use crate::read_types::{more_types, read_type};
use crate::spans::{List, Span};
use crate::types::WrittenType;
use ae_lex::{Reserved, Sign, Token, TokenKind, TokenList};
use std::alloc::Global;

// A name with its type.
fn read_typed(
    alloc: Global,
    tokens: &TokenList,
    at: usize,
    depth: usize,
) -> Result<(TypedName, usize), Refusal>
    requires within { at ≤ length tokens.now }
    requires shallow { depth ≤ DEPTH_LIMIT }
    ensures { Answered (λ n. part.typed n) (machine.typed_wants depth) [] tokens.now 8 at result }
{
    let name = take(tokens, at, TokenKind::Ident)?;
    take_sign(tokens, at + 1, Sign::Colon)?;
    let (sort, to) = read_type(alloc, tokens, at + 2, depth)?;
    Ok((typed_name(name, sort), to))
}

// Names with their types, parted by this sign.
fn read_typeds(
    alloc: Global,
    tokens: &TokenList,
    at: usize,
    separator: Sign,
) -> Result<(List<TypedName>, usize), Refusal>
    requires within { at ≤ length tokens.now }
    ensures { TypedsRead separator tokens.now at result }
{
    let mut found = List::new(alloc);
    let (first, end) = read_typed(alloc, tokens, at, 1)?;
    found.push(first)?;
    let mut to = end;
    while stands_sign(tokens, to, separator) {
        let (typed, end) = read_typed(alloc, tokens, to + 1, 1)?;
        found.push(typed)?;
        to = end;
    }
    Ok((found, to))
}

// The parameters of a type: one, or two and more in round brackets.
fn read_params(alloc: Global, tokens: &TokenList, at: usize) -> Result<(List<Span>, usize), Refusal>
    requires within { at ≤ length tokens.now }
    requires other { Lacks kind.Ident tokens.now at }
    ensures { Turns (machine.type_head ∷ []) [] tokens.now at (machine.keep kind.Ident 0 ∷ machine.type_end ∷ []) (λ ps. part.names ps ∷ []) result }
{
    let mut found = List::new(alloc);
    if let Ok(var) = take(tokens, at, TokenKind::TypeVar) {
        found.push(span(var))?;
        return Ok((found, at + 1));
    }
    take_sign(tokens, at, Sign::OpenParen)?;
    let first = take(tokens, at + 1, TokenKind::TypeVar)?;
    take_sign(tokens, at + 2, Sign::Comma)?;
    let (others, to) = read_item_list(alloc, tokens, at + 3, TokenKind::TypeVar, Sign::Comma)?;
    take_sign(tokens, to, Sign::CloseParen)?;
    found.push(span(first))?;
    found.append(others)?;
    Ok((found, to + 1))
}

// The fields of a record type, up to the closing brace.
fn read_fields(
    alloc: Global,
    first: Token,
    params: List<Span>,
    name: Token,
    tokens: &TokenList,
    at: usize,
) -> Result<(Decl, usize), Refusal>
    requires within { at ≤ length tokens.now }
    ensures { Answered (λ d. part.decl d) machine.record_wants (part.token name ∷ part.names params ∷ part.token first ∷ []) tokens.now 8 at result }
{
    let (fields, to) = read_typeds(alloc, tokens, at, Sign::Semicolon)?;
    let close = take_sign(tokens, to, Sign::CloseBrace)?;
    Ok((record_type(first, params, name, fields, close), to + 1))
}

// What follows the name of a type without parameters.
fn read_plain_type(
    alloc: Global,
    first: Token,
    name: Token,
    tokens: &TokenList,
    at: usize,
) -> Result<(Decl, usize), Refusal>
    requires within { at ≤ length tokens.now }
    ensures { Answered (λ d. part.decl d) (machine.type_body ∷ []) (part.token name ∷ part.names [] ∷ part.token first ∷ []) tokens.now 8 at result }
{
    let params = List::new(alloc);
    if !stands_sign(tokens, at, Sign::Equal) {
        return Ok((abstract_type(alloc, first, params, name), at));
    }
    if let Ok(_open) = take_sign(tokens, at + 1, Sign::OpenBrace) {
        return read_fields(alloc, first, params, name, tokens, at + 2);
    }
    let (constructors, to) = read_item_list(alloc, tokens, at + 1, TokenKind::Ident, Sign::Bar)?;
    Ok((enumeration(first, name, constructors), to))
}

fn read_type_decl(
    alloc: Global,
    first: Token,
    tokens: &TokenList,
    at: usize,
) -> Result<(Decl, usize), Refusal>
    requires within { at ≤ length tokens.now }
    ensures { Answered (λ d. part.decl d) (machine.type_head ∷ []) (part.token first ∷ []) tokens.now 8 at result }
{
    if let Ok(name) = take(tokens, at, TokenKind::Ident) {
        return read_plain_type(alloc, first, name, tokens, at + 1);
    }
    let (params, to) = read_params(alloc, tokens, at)?;
    let name = take(tokens, to, TokenKind::Ident)?;
    if !stands_sign(tokens, to + 1, Sign::Equal) {
        return Ok((abstract_type(alloc, first, params, name), to + 1));
    }
    take_sign(tokens, to + 2, Sign::OpenBrace)?;
    read_fields(alloc, first, params, name, tokens, to + 3)
}

// A type or `prop`.
fn read_result(
    alloc: Global,
    tokens: &TokenList,
    at: usize,
) -> Result<(SymbolResult, usize), Refusal>
    requires within { at ≤ length tokens.now }
    ensures { Answered (λ r. part.result r) (machine.a_result ∷ []) [] tokens.now 8 at result }
{
    if let Ok(prop) = take_word(tokens, at, Reserved::Prop) {
        return Ok((prop_result(prop), at + 1));
    }
    let (sort, to) = read_type(alloc, tokens, at, 0)?;
    Ok((sort_result(sort), to))
}

// The result of symbols with arguments.
fn read_range(
    alloc: Global,
    first: Token,
    ac: bool,
    names: List<Span>,
    args: List<WrittenType>,
    tokens: &TokenList,
    at: usize,
) -> Result<(Decl, usize), Refusal>
    requires within { at ≤ length tokens.now }
    ensures { Answered (λ d. part.decl d) (machine.a_result ∷ machine.make machine.be_symbols ∷ []) (part.sorts args ∷ part.names names ∷ part.flag ac ∷ part.token first ∷ []) tokens.now 8 at result }
{
    let (range, to) = read_result(alloc, tokens, at)?;
    Ok((logic_of(first, ac, names, args, range), to))
}

// The sorts of a symbol's arguments after the first one, and its result.
fn read_arguments(
    alloc: Global,
    first: Token,
    ac: bool,
    names: List<Span>,
    args: List<WrittenType>,
    tokens: &TokenList,
    at: usize,
) -> Result<(Decl, usize), Refusal>
    requires within { at ≤ length tokens.now }
    ensures { Answered (λ d. part.decl d) (machine.more grammar.of_types 0 ∷ machine.past sign.Arrow 0 ∷ machine.a_result ∷ machine.make machine.be_symbols ∷ []) (part.sorts args ∷ part.names names ∷ part.flag ac ∷ part.token first ∷ []) tokens.now 8 at result }
{
    let (all, to) = more_types(alloc, args, tokens, at, 0)?;
    take_sign(tokens, to, Sign::Arrow)?;
    read_range(alloc, first, ac, names, all, tokens, to + 1)
}

// The sorts of a symbol's arguments and its result.
fn read_sorts(
    alloc: Global,
    first: Token,
    ac: bool,
    names: List<Span>,
    tokens: &TokenList,
    at: usize,
) -> Result<(Decl, usize), Refusal>
    requires within { at ≤ length tokens.now }
    ensures { Answered (λ d. part.decl d) (machine.logic_sorts ∷ []) (part.names names ∷ part.flag ac ∷ part.token first ∷ []) tokens.now 8 at result }
{
    let mut args = List::new(alloc);
    if let Ok(prop) = take_word(tokens, at, Reserved::Prop) {
        return Ok((logic_of(first, ac, names, args, prop_result(prop)), at + 1));
    }
    let (sort, to) = read_type(alloc, tokens, at, 0)?;
    if stands_sign(tokens, to, Sign::Arrow) {
        args.push(sort)?;
        return read_range(alloc, first, ac, names, args, tokens, to + 1);
    }
    if !stands_sign(tokens, to, Sign::Comma) {
        return Ok((logic_of(first, ac, names, args, sort_result(sort)), to));
    }
    args.push(sort)?;
    read_arguments(alloc, first, ac, names, args, tokens, to)
}

// The names of the declared symbols, and their sorts.
fn read_symbols(
    alloc: Global,
    first: Token,
    ac: bool,
    tokens: &TokenList,
    at: usize,
) -> Result<(Decl, usize), Refusal>
    requires within { at ≤ length tokens.now }
    ensures { Answered (λ d. part.decl d) (machine.items_wants grammar.of_names 0 ++ machine.past sign.Colon 0 ∷ machine.logic_sorts ∷ []) (part.flag ac ∷ part.token first ∷ []) tokens.now 8 at result }
{
    let (names, to) = read_item_list(alloc, tokens, at, TokenKind::Ident, Sign::Comma)?;
    take_sign(tokens, to, Sign::Colon)?;
    read_sorts(alloc, first, ac, names, tokens, to + 1)
}

fn read_logic(
    alloc: Global,
    first: Token,
    tokens: &TokenList,
    at: usize,
) -> Result<(Decl, usize), Refusal>
    requires within { at ≤ length tokens.now }
    ensures { Answered (λ d. part.decl d) (machine.logic_head ∷ []) (part.token first ∷ []) tokens.now 8 at result }
{
    if stands_word(tokens, at, Reserved::Ac) {
        return read_symbols(alloc, first, true, tokens, at + 1);
    }
    read_symbols(alloc, first, false, tokens, at)
}

// The formals up to their closing bracket, if there are any.
fn read_formals(
    alloc: Global,
    tokens: &TokenList,
    at: usize,
) -> Result<(List<TypedName>, usize), Refusal>
    requires within { at ≤ length tokens.now }
    ensures { Answered (λ ns. part.typeds ns) (machine.formals_end ∷ []) [] tokens.now 8 at result }
{
    let none = List::new(alloc);
    if stands_sign(tokens, at, Sign::CloseParen) {
        return Ok((none, at + 1));
    }
    let (formals, to) = read_typeds(alloc, tokens, at, Sign::Comma)?;
    take_sign(tokens, to, Sign::CloseParen)?;
    Ok((formals, to + 1))
}

fn read_function(
    alloc: Global,
    first: Token,
    tokens: &TokenList,
    at: usize,
) -> Result<(Decl, usize), Refusal>
    requires within { at ≤ length tokens.now }
    ensures { Answered (λ d. part.decl d) (machine.keep kind.Ident 0 ∷ machine.past sign.OpenParen 1 ∷ machine.formals_end ∷ machine.past sign.Colon 0 ∷ machine.a_type 0 ∷ machine.past sign.Equal 0 ∷ machine.an_expr 0 ∷ machine.make machine.be_function ∷ []) (part.token first ∷ []) tokens.now 8 at result }
{
    let name = take(tokens, at, TokenKind::Ident)?;
    take_sign(tokens, at + 1, Sign::OpenParen)?;
    let (formals, to) = read_formals(alloc, tokens, at + 2)?;
    take_sign(tokens, to, Sign::Colon)?;
    let (sort, to) = read_type(alloc, tokens, to + 1, 0)?;
    take_sign(tokens, to, Sign::Equal)?;
    let (body, to) = read_expr(alloc, tokens, to + 1, 0)?;
    Ok((function_of(first, name, formals, sort, body), to))
}

// The formals in brackets, if there are any, up to the `=`.
fn read_optional_formals(
    alloc: Global,
    tokens: &TokenList,
    at: usize,
) -> Result<(List<TypedName>, usize), Refusal>
    requires within { at ≤ length tokens.now }
    ensures { Answered (λ ns. part.typeds ns) (machine.predicate_head ∷ []) [] tokens.now 8 at result }
{
    let none = List::new(alloc);
    if stands_sign(tokens, at, Sign::Equal) {
        return Ok((none, at + 1));
    }
    take_sign(tokens, at, Sign::OpenParen)?;
    let (formals, to) = read_formals(alloc, tokens, at + 1)?;
    take_sign(tokens, to, Sign::Equal)?;
    Ok((formals, to + 1))
}

fn read_predicate(
    alloc: Global,
    first: Token,
    tokens: &TokenList,
    at: usize,
) -> Result<(Decl, usize), Refusal>
    requires within { at ≤ length tokens.now }
    ensures { Answered (λ d. part.decl d) (machine.keep kind.Ident 0 ∷ machine.predicate_head ∷ machine.an_expr 0 ∷ machine.make machine.be_predicate ∷ []) (part.token first ∷ []) tokens.now 8 at result }
{
    let name = take(tokens, at, TokenKind::Ident)?;
    let (formals, to) = read_optional_formals(alloc, tokens, at + 1)?;
    let (body, to) = read_expr(alloc, tokens, to, 0)?;
    Ok((predicate_of(first, name, formals, body), to))
}

// A name and, after a colon, an expression.
fn read_named(
    alloc: Global,
    tokens: &TokenList,
    at: usize,
) -> Result<((Token, Expr), usize), Refusal>
    requires within { at ≤ length tokens.now }
    ensures { Turns (machine.keep kind.Ident 0 ∷ machine.past sign.Colon 0 ∷ machine.an_expr 0 ∷ []) [] tokens.now at [] (λ p. part.tree p.1 ∷ part.token p.0 ∷ []) result }
{
    let name = take(tokens, at, TokenKind::Ident)?;
    take_sign(tokens, at + 1, Sign::Colon)?;
    let (body, to) = read_expr(alloc, tokens, at + 2, 0)?;
    Ok(((name, body), to))
}

fn read_axiom(
    alloc: Global,
    first: Token,
    tokens: &TokenList,
    at: usize,
) -> Result<(Decl, usize), Refusal>
    requires within { at ≤ length tokens.now }
    ensures { Answered (λ d. part.decl d) (machine.keep kind.Ident 0 ∷ machine.past sign.Colon 0 ∷ machine.an_expr 0 ∷ machine.make machine.be_axiom ∷ []) (part.token first ∷ []) tokens.now 8 at result }
{
    let ((name, body), to) = read_named(alloc, tokens, at)?;
    Ok((axiom_of(first, name, body), to))
}

fn read_goal(
    alloc: Global,
    first: Token,
    tokens: &TokenList,
    at: usize,
) -> Result<(Decl, usize), Refusal>
    requires within { at ≤ length tokens.now }
    ensures { Answered (λ d. part.decl d) (machine.keep kind.Ident 0 ∷ machine.past sign.Colon 0 ∷ machine.an_expr 0 ∷ machine.make machine.be_goal ∷ []) (part.token first ∷ []) tokens.now 8 at result }
{
    let ((name, body), to) = read_named(alloc, tokens, at)?;
    Ok((goal_of(first, name, body), to))
}

// The word that a token is.
fn word_of(token: Token) -> Option<Reserved>
    ensures some { IfSome result (λ w. token.kind ≡ kind.Reserved w) }
    ensures none { IfNone result (machine.decl_wants token.kind ≡ None) }
{
    match token.kind {
        TokenKind::Reserved(word) => Some(word),
        TokenKind::Ident => None,
        TokenKind::TypeVar => None,
        TokenKind::Whole(_) => None,
        TokenKind::Decimal { .. } => None,
        TokenKind::Sign(_) => None,
    }
}

/// A declaration.
pub fn read_decl(
    alloc: Global,
    first: Token,
    tokens: &TokenList,
    at: usize,
) -> Result<(Decl, usize), Refusal>
    requires here { IsAt tokens.now at first }
    ensures { DeclRead tokens.now at result }
{
    let Some(word) = word_of(first) else {
        return Err(Refusal::Wrong { at });
    };
    match word {
        Reserved::Type_ => read_type_decl(alloc, first, tokens, at + 1),
        Reserved::Logic => read_logic(alloc, first, tokens, at + 1),
        Reserved::Function => read_function(alloc, first, tokens, at + 1),
        Reserved::Predicate => read_predicate(alloc, first, tokens, at + 1),
        Reserved::Axiom => read_axiom(alloc, first, tokens, at + 1),
        Reserved::Goal => read_goal(alloc, first, tokens, at + 1),
        _ => Err(Refusal::Wrong { at }),
    }
}
