//! Reading of expressions. Each function descends to tighter lines of the grammar, and none goes back.
//! The recursion goes deeper only where the depth of a token does, or from one line of the grammar to
//! a tighter one.

ghost use Rattle.std.specs.Prelude.{ℕ, ◌≡◌, ◌+◌, ◌^◌, ◌≤◌, ◌<◌, ◌∷◌, [], true, length, drop, IfOk};
ghost use Rattle.std.specs.Bool.{MatchBool};
ghost use Rattle.ae_lex.specs.declared.kinds.Token.{Token};
ghost use Rattle.ae_lex.specs.declared.kinds.TokenKind.TheVariants as kind;
ghost use Rattle.ae_lex.specs.declared.kinds.Reserved.TheVariants as word;
ghost use Rattle.ae_lex.specs.declared.kinds.Sign.TheVariants as sign;
ghost use Rattle.ae_syntax.specs.declared.cursor.TheConstants.{DEPTH_LIMIT};
ghost use Rattle.ae_syntax.specs.Kinds.{quantifies};
ghost use Rattle.ae_syntax.specs.Inner.SameKinds.{same};
ghost use Rattle.ae_syntax.specs.Parts.{token, tree, trees, setting, settings, trigger, triggers, group, groups, names};
ghost use Rattle.ae_syntax.specs.Grammar.{Items, of_settings, of_exprs, of_triggers, of_groups};
ghost use Rattle.ae_syntax.specs.Inner.Machine.{an_expr, an_and, an_not, a_rel, a_sum, a_prod, a_unary, a_post, an_atom, more_arrow, more_or, more_and, more_rel, more_sum, more_prod, more_post, call, triggers_or_dot, items_wants, element_wants, constant};
ghost use Rattle.ae_syntax.specs.Inner.Reading.{Answered, ConstantAnswered, placed, IsAt, Sets, SetsNone, grip, distinct_wants, ascribed_wants, record_wants, change_wants};

use crate::cursor::{
    additive, arrow, deeper, is_sign, is_word, multiplicative, next, quantifies, relation, same,
    stands, stands_sign, stands_word, take, take_sign, take_word,
};
use crate::exprs::{BinaryOp, Expr, ExprKind, Number, Quantifier, Setting, Trigger};
use crate::faults::Refusal;
use crate::nodes::{
    applied, ascribed, bare, binary, bracketed, conditional, distinct_of, expression, field_of,
    let_in, negation, negative, quantified, record_of, setting_of, span, trigger_of, update_of,
};
use crate::read_groups::read_groups;
use crate::read_types::read_type;
use crate::spans::{Boxed, List};
use ae_lex::{Reserved, Sign, Token, TokenKind, TokenList};
use std::alloc::{AllocError, Global};

/// An expression.
#[cycle(expression)]
pub fn read_expr(
    alloc: Global,
    tokens: &TokenList,
    at: usize,
    depth: usize,
) -> Result<(Expr, usize), Refusal>
    requires within { at ≤ length tokens.now }
    requires shallow { depth ≤ DEPTH_LIMIT }
    ensures { Answered (λ p. tree p) (an_expr depth ∷ []) [] tokens.now 1 at result }
{
    let (left, to) = read_not(alloc, tokens, at, depth)?;
    let (left, to) = more_and(alloc, left, tokens, to, depth)?;
    let (left, to) = more_or(alloc, left, tokens, to, depth)?;
    more_arrow(alloc, left, tokens, to, depth)
}

#[cycle(expression)]
fn more_arrow(
    alloc: Global,
    left: Expr,
    tokens: &TokenList,
    at: usize,
    depth: usize,
) -> Result<(Expr, usize), Refusal>
    requires within { at ≤ length tokens.now }
    requires shallow { depth ≤ DEPTH_LIMIT }
    requires weak { grip (drop at tokens.now) < 2 }
    ensures { Answered (λ p. tree p) (more_arrow depth ∷ []) (tree left ∷ []) tokens.now 1 at result }
{
    let Some(first) = next(tokens, at) else {
        return Ok((left, at));
    };
    let Some(op) = arrow(first.kind) else {
        return Ok((left, at));
    };
    let inner = deeper(depth, at)?;
    let (right, to) = read_expr(alloc, tokens, at + 1, inner)?;
    let joined = binary(alloc, op, left, right)?;
    Ok((joined, to))
}

#[cycle(expression)]
fn more_or(
    alloc: Global,
    left: Expr,
    tokens: &TokenList,
    at: usize,
    depth: usize,
) -> Result<(Expr, usize), Refusal>
    requires within { at ≤ length tokens.now }
    requires shallow { depth ≤ DEPTH_LIMIT }
    requires weak { grip (drop at tokens.now) < 3 }
    ensures { Answered (λ p. tree p) (more_or depth ∷ []) (tree left ∷ []) tokens.now 2 at result }
{
    if !stands_word(tokens, at, Reserved::Or) {
        return Ok((left, at));
    }
    let inner = deeper(depth, at)?;
    let (right, to) = read_and(alloc, tokens, at + 1, inner)?;
    let joined = binary(alloc, BinaryOp::Or, left, right)?;
    more_or(alloc, joined, tokens, to, inner)
}

#[cycle(expression)]
fn read_and(
    alloc: Global,
    tokens: &TokenList,
    at: usize,
    depth: usize,
) -> Result<(Expr, usize), Refusal>
    requires within { at ≤ length tokens.now }
    requires shallow { depth ≤ DEPTH_LIMIT }
    ensures { Answered (λ p. tree p) (an_and depth ∷ []) [] tokens.now 3 at result }
{
    let (left, to) = read_not(alloc, tokens, at, depth)?;
    more_and(alloc, left, tokens, to, depth)
}

#[cycle(expression)]
fn more_and(
    alloc: Global,
    left: Expr,
    tokens: &TokenList,
    at: usize,
    depth: usize,
) -> Result<(Expr, usize), Refusal>
    requires within { at ≤ length tokens.now }
    requires shallow { depth ≤ DEPTH_LIMIT }
    requires weak { grip (drop at tokens.now) < 4 }
    ensures { Answered (λ p. tree p) (more_and depth ∷ []) (tree left ∷ []) tokens.now 3 at result }
{
    if !stands_word(tokens, at, Reserved::And) {
        return Ok((left, at));
    }
    let inner = deeper(depth, at)?;
    let (right, to) = read_not(alloc, tokens, at + 1, inner)?;
    let joined = binary(alloc, BinaryOp::And, left, right)?;
    more_and(alloc, joined, tokens, to, inner)
}

#[cycle(expression)]
fn read_not(
    alloc: Global,
    tokens: &TokenList,
    at: usize,
    depth: usize,
) -> Result<(Expr, usize), Refusal>
    requires within { at ≤ length tokens.now }
    requires shallow { depth ≤ DEPTH_LIMIT }
    ensures { Answered (λ p. tree p) (an_not depth ∷ []) [] tokens.now 4 at result }
{
    let Some(first) = next(tokens, at) else {
        return Err(Refusal::Wrong { at });
    };
    if is_word(first, Reserved::Not) {
        return read_negation(alloc, first, tokens, at, depth);
    }
    if is_word(first, Reserved::Let) {
        return read_let(alloc, first, tokens, at, depth);
    }
    if is_word(first, Reserved::If) {
        return read_if(alloc, first, tokens, at, depth);
    }
    if let Some(quantifier) = quantifies(first.kind) {
        return read_block(alloc, first, quantifier, tokens, at, depth);
    }
    read_rel(alloc, tokens, at, depth)
}

#[cycle(expression)]
fn read_negation(
    alloc: Global,
    first: Token,
    tokens: &TokenList,
    at: usize,
    depth: usize,
) -> Result<(Expr, usize), Refusal>
    requires within { at ≤ length tokens.now }
    requires shallow { depth ≤ DEPTH_LIMIT }
    requires here { IsAt tokens.now at first }
    requires word { same first.kind (kind.Reserved word.Not) ≡ true }
    ensures { Answered (λ p. tree p) (an_not depth ∷ []) [] tokens.now 4 at result }
{
    let inner = deeper(depth, at)?;
    let (body, to) = read_not(alloc, tokens, at + 1, inner)?;
    let negated = negation(alloc, first, body)?;
    Ok((negated, to))
}

// `forall` or `exists` with what follows it.
#[cycle(expression)]
fn read_block(
    alloc: Global,
    first: Token,
    quantifier: Quantifier,
    tokens: &TokenList,
    at: usize,
    depth: usize,
) -> Result<(Expr, usize), Refusal>
    requires within { at ≤ length tokens.now }
    requires shallow { depth ≤ DEPTH_LIMIT }
    requires here { IsAt tokens.now at first }
    requires word { quantifies first.kind ≡ Some quantifier }
    ensures { Answered (λ p. tree p) (an_not depth ∷ []) [] tokens.now 1 at result }
{
    let inner = deeper(depth, at)?;
    let (groups, to) = read_groups(alloc, tokens, at + 1, inner)?;
    let (triggers, to) = read_triggers(alloc, tokens, to, inner)?;
    let (body, to) = read_expr(alloc, tokens, to, inner)?;
    let block = quantified(alloc, first, quantifier, groups, triggers, body)?;
    Ok((block, to))
}

// The triggers in square brackets, or none, and the point after them.
#[cycle(expression)]
fn read_triggers(
    alloc: Global,
    tokens: &TokenList,
    at: usize,
    depth: usize,
) -> Result<(List<Trigger>, usize), Refusal>
    requires within { at ≤ length tokens.now }
    requires shallow { depth ≤ DEPTH_LIMIT }
    ensures { Answered (λ p. triggers p) (triggers_or_dot depth ∷ []) [] tokens.now 8 at result }
{
    if stands_sign(tokens, at, Sign::Dot) {
        return Ok((List::new(alloc), at + 1));
    }
    take_sign(tokens, at, Sign::OpenBracket)?;
    let inner = deeper(depth, at)?;
    let (found, to) = read_trigger_items(alloc, tokens, at + 1, inner)?;
    take_sign(tokens, to, Sign::CloseBracket)?;
    take_sign(tokens, to + 1, Sign::Dot)?;
    Ok((found, to + 2))
}

// Triggers parted by bars.
#[cycle(expression)]
fn read_trigger_items(
    alloc: Global,
    tokens: &TokenList,
    at: usize,
    depth: usize,
) -> Result<(List<Trigger>, usize), Refusal>
    requires within { at ≤ length tokens.now }
    requires shallow { depth ≤ DEPTH_LIMIT }
    ensures { Answered (λ p. triggers p) (items_wants of_triggers depth) [] tokens.now 1 at result }
{
    let mut found = List::new(alloc);
    let (first, to) = read_trigger(alloc, tokens, at, depth)?;
    found.push(first)?;
    let mut end = to;
    while stands_sign(tokens, end, Sign::Bar) {
        let (trigger, to) = read_trigger(alloc, tokens, end + 1, depth)?;
        found.push(trigger)?;
        end = to;
    }
    Ok((found, end))
}

#[cycle(expression)]
fn read_trigger(
    alloc: Global,
    tokens: &TokenList,
    at: usize,
    depth: usize,
) -> Result<(Trigger, usize), Refusal>
    requires within { at ≤ length tokens.now }
    requires shallow { depth ≤ DEPTH_LIMIT }
    ensures { Answered (λ p. trigger p) (element_wants of_triggers depth) [] tokens.now 1 at result }
{
    let (terms, to) = read_terms(alloc, tokens, at, depth)?;
    Ok((trigger_of(terms), to))
}

#[cycle(expression)]
fn read_let(
    alloc: Global,
    first: Token,
    tokens: &TokenList,
    at: usize,
    depth: usize,
) -> Result<(Expr, usize), Refusal>
    requires within { at ≤ length tokens.now }
    requires shallow { depth ≤ DEPTH_LIMIT }
    requires here { IsAt tokens.now at first }
    requires word { same first.kind (kind.Reserved word.Let) ≡ true }
    ensures { Answered (λ p. tree p) (an_not depth ∷ []) [] tokens.now 1 at result }
{
    let inner = deeper(depth, at)?;
    let name = take(tokens, at + 1, TokenKind::Ident)?;
    take_sign(tokens, at + 2, Sign::Equal)?;
    let (value, to) = read_expr(alloc, tokens, at + 3, inner)?;
    take_word(tokens, to, Reserved::In)?;
    let (body, to) = read_expr(alloc, tokens, to + 1, inner)?;
    let bound = let_in(alloc, first, name, value, body)?;
    Ok((bound, to))
}

#[cycle(expression)]
fn read_if(
    alloc: Global,
    first: Token,
    tokens: &TokenList,
    at: usize,
    depth: usize,
) -> Result<(Expr, usize), Refusal>
    requires within { at ≤ length tokens.now }
    requires shallow { depth ≤ DEPTH_LIMIT }
    requires here { IsAt tokens.now at first }
    requires word { same first.kind (kind.Reserved word.If) ≡ true }
    ensures { Answered (λ p. tree p) (an_not depth ∷ []) [] tokens.now 1 at result }
{
    let inner = deeper(depth, at)?;
    let (condition, to) = read_expr(alloc, tokens, at + 1, inner)?;
    take_word(tokens, to, Reserved::Then)?;
    let (positive, to) = read_expr(alloc, tokens, to + 1, inner)?;
    take_word(tokens, to, Reserved::Else)?;
    let (negative, to) = read_expr(alloc, tokens, to + 1, inner)?;
    let choice = conditional(alloc, first, condition, positive, negative)?;
    Ok((choice, to))
}

#[cycle(expression)]
fn read_rel(
    alloc: Global,
    tokens: &TokenList,
    at: usize,
    depth: usize,
) -> Result<(Expr, usize), Refusal>
    requires within { at ≤ length tokens.now }
    requires shallow { depth ≤ DEPTH_LIMIT }
    ensures { Answered (λ p. tree p) (a_rel depth ∷ []) [] tokens.now 4 at result }
{
    let (left, to) = read_unary(alloc, tokens, at, depth)?;
    let (left, to) = more_prod(alloc, left, tokens, to, depth)?;
    let (left, to) = more_sum(alloc, left, tokens, to, depth)?;
    more_rel(alloc, left, tokens, to, depth)
}

#[cycle(expression)]
fn more_rel(
    alloc: Global,
    left: Expr,
    tokens: &TokenList,
    at: usize,
    depth: usize,
) -> Result<(Expr, usize), Refusal>
    requires within { at ≤ length tokens.now }
    requires shallow { depth ≤ DEPTH_LIMIT }
    requires weak { grip (drop at tokens.now) < 5 }
    ensures { Answered (λ p. tree p) (more_rel depth ∷ []) (tree left ∷ []) tokens.now 4 at result }
{
    let Some(first) = next(tokens, at) else {
        return Ok((left, at));
    };
    let Some(op) = relation(first.kind) else {
        return Ok((left, at));
    };
    let (right, to) = read_sum(alloc, tokens, at + 1, depth)?;
    let joined = binary(alloc, op, left, right)?;
    Ok((joined, to))
}

#[cycle(expression)]
fn read_sum(
    alloc: Global,
    tokens: &TokenList,
    at: usize,
    depth: usize,
) -> Result<(Expr, usize), Refusal>
    requires within { at ≤ length tokens.now }
    requires shallow { depth ≤ DEPTH_LIMIT }
    ensures { Answered (λ p. tree p) (a_sum depth ∷ []) [] tokens.now 5 at result }
{
    let (left, to) = read_unary(alloc, tokens, at, depth)?;
    let (left, to) = more_prod(alloc, left, tokens, to, depth)?;
    more_sum(alloc, left, tokens, to, depth)
}

#[cycle(expression)]
fn more_sum(
    alloc: Global,
    left: Expr,
    tokens: &TokenList,
    at: usize,
    depth: usize,
) -> Result<(Expr, usize), Refusal>
    requires within { at ≤ length tokens.now }
    requires shallow { depth ≤ DEPTH_LIMIT }
    requires weak { grip (drop at tokens.now) < 6 }
    ensures { Answered (λ p. tree p) (more_sum depth ∷ []) (tree left ∷ []) tokens.now 5 at result }
{
    let Some(first) = next(tokens, at) else {
        return Ok((left, at));
    };
    let Some(op) = additive(first.kind) else {
        return Ok((left, at));
    };
    let inner = deeper(depth, at)?;
    let (right, to) = read_prod(alloc, tokens, at + 1, inner)?;
    let joined = binary(alloc, op, left, right)?;
    more_sum(alloc, joined, tokens, to, inner)
}

#[cycle(expression)]
fn read_prod(
    alloc: Global,
    tokens: &TokenList,
    at: usize,
    depth: usize,
) -> Result<(Expr, usize), Refusal>
    requires within { at ≤ length tokens.now }
    requires shallow { depth ≤ DEPTH_LIMIT }
    ensures { Answered (λ p. tree p) (a_prod depth ∷ []) [] tokens.now 6 at result }
{
    let (left, to) = read_unary(alloc, tokens, at, depth)?;
    more_prod(alloc, left, tokens, to, depth)
}

#[cycle(expression)]
fn more_prod(
    alloc: Global,
    left: Expr,
    tokens: &TokenList,
    at: usize,
    depth: usize,
) -> Result<(Expr, usize), Refusal>
    requires within { at ≤ length tokens.now }
    requires shallow { depth ≤ DEPTH_LIMIT }
    requires weak { grip (drop at tokens.now) < 7 }
    ensures { Answered (λ p. tree p) (more_prod depth ∷ []) (tree left ∷ []) tokens.now 6 at result }
{
    let Some(first) = next(tokens, at) else {
        return Ok((left, at));
    };
    let Some(op) = multiplicative(first.kind) else {
        return Ok((left, at));
    };
    let inner = deeper(depth, at)?;
    let (right, to) = read_unary(alloc, tokens, at + 1, inner)?;
    let joined = binary(alloc, op, left, right)?;
    more_prod(alloc, joined, tokens, to, inner)
}

#[cycle(expression)]
fn read_unary(
    alloc: Global,
    tokens: &TokenList,
    at: usize,
    depth: usize,
) -> Result<(Expr, usize), Refusal>
    requires within { at ≤ length tokens.now }
    requires shallow { depth ≤ DEPTH_LIMIT }
    ensures { Answered (λ p. tree p) (a_unary depth ∷ []) [] tokens.now 7 at result }
{
    let Some(first) = next(tokens, at) else {
        return Err(Refusal::Wrong { at });
    };
    if is_sign(first, Sign::Minus) {
        return read_negative(alloc, first, tokens, at, depth);
    }
    let (left, to) = read_atom(alloc, tokens, at, depth)?;
    more_post(alloc, left, tokens, to, depth)
}

#[cycle(expression)]
fn read_negative(
    alloc: Global,
    first: Token,
    tokens: &TokenList,
    at: usize,
    depth: usize,
) -> Result<(Expr, usize), Refusal>
    requires within { at ≤ length tokens.now }
    requires shallow { depth ≤ DEPTH_LIMIT }
    requires here { IsAt tokens.now at first }
    requires sign { same first.kind (kind.Sign sign.Minus) ≡ true }
    ensures { Answered (λ p. tree p) (a_unary depth ∷ []) [] tokens.now 7 at result }
{
    let inner = deeper(depth, at)?;
    let (body, to) = read_unary(alloc, tokens, at + 1, inner)?;
    let opposed = negative(alloc, first, body)?;
    Ok((opposed, to))
}

#[cycle(expression)]
fn read_post(
    alloc: Global,
    tokens: &TokenList,
    at: usize,
    depth: usize,
) -> Result<(Expr, usize), Refusal>
    requires within { at ≤ length tokens.now }
    requires shallow { depth ≤ DEPTH_LIMIT }
    ensures { Answered (λ p. tree p) (a_post depth ∷ []) [] tokens.now 7 at result }
{
    let (left, to) = read_atom(alloc, tokens, at, depth)?;
    more_post(alloc, left, tokens, to, depth)
}

// The field accesses after an expression.
fn more_post(
    alloc: Global,
    left: Expr,
    tokens: &TokenList,
    at: usize,
    depth: usize,
) -> Result<(Expr, usize), Refusal>
    requires within { at ≤ length tokens.now }
    requires shallow { depth ≤ DEPTH_LIMIT }
    ensures { Answered (λ p. tree p) (more_post depth ∷ []) (tree left ∷ []) tokens.now 7 at result }
{
    if !stands_sign(tokens, at, Sign::Dot) {
        return Ok((left, at));
    }
    let inner = deeper(depth, at)?;
    let name = take(tokens, at + 1, TokenKind::Ident)?;
    let field = field_of(alloc, left, name)?;
    more_post(alloc, field, tokens, at + 2, inner)
}

// An atom that is one token.
fn constant(alloc: Global, kind: TokenKind) -> Result<Option<ExprKind>, AllocError>
    ensures { IfOk result (λ atom. (t : Token) → constant t kind ≡ placed t atom) }
{
    let atom = match kind {
        TokenKind::Whole(value) => { ExprKind::Numeral(Boxed::new(alloc, Number::Whole(value))?) }
        TokenKind::Decimal { top, bottom } => {
            ExprKind::Numeral(Boxed::new(alloc, Number::Decimal { top, bottom })?)
        }
        TokenKind::Reserved(Reserved::True) => ExprKind::True,
        TokenKind::Reserved(Reserved::False) => ExprKind::False,
        TokenKind::Reserved(Reserved::Void) => ExprKind::Void,
        _ => return Ok(None),
    };
    Ok(Some(atom))
}

fn read_constant(alloc: Global, first: Token, at: usize) -> Result<Expr, Refusal>
    ensures { ConstantAnswered first at result }
{
    let Some(kind) = constant(alloc, first.kind)? else {
        return Err(Refusal::Wrong { at });
    };
    let atom = expression(alloc, span(first), kind)?;
    Ok(atom)
}

#[cycle(expression)]
fn read_atom(
    alloc: Global,
    tokens: &TokenList,
    at: usize,
    depth: usize,
) -> Result<(Expr, usize), Refusal>
    requires within { at ≤ length tokens.now }
    requires shallow { depth ≤ DEPTH_LIMIT }
    ensures { Answered (λ p. tree p) (an_atom depth ∷ []) [] tokens.now 8 at result }
{
    let Some(first) = next(tokens, at) else {
        return Err(Refusal::Wrong { at });
    };
    if same(first.kind, TokenKind::Ident) {
        return read_call(alloc, first, tokens, at + 1, depth);
    }
    if is_sign(first, Sign::OpenParen) {
        return read_brackets(alloc, first, tokens, at, depth);
    }
    if is_sign(first, Sign::OpenBrace) {
        return read_braces(alloc, first, tokens, at, depth);
    }
    if is_word(first, Reserved::Distinct) {
        return read_distinct(alloc, first, tokens, at + 1, depth);
    }
    let atom = read_constant(alloc, first, at)?;
    Ok((atom, at + 1))
}

// The arguments of a name, or none.
#[cycle(expression)]
fn read_call(
    alloc: Global,
    name: Token,
    tokens: &TokenList,
    at: usize,
    depth: usize,
) -> Result<(Expr, usize), Refusal>
    requires within { at ≤ length tokens.now }
    requires shallow { depth ≤ DEPTH_LIMIT }
    ensures { Answered (λ p. tree p) (call depth ∷ []) (token name ∷ []) tokens.now 8 at result }
{
    if !stands_sign(tokens, at, Sign::OpenParen) {
        let named = bare(alloc, name)?;
        return Ok((named, at));
    }
    let inner = deeper(depth, at)?;
    let (args, to) = read_terms(alloc, tokens, at + 1, inner)?;
    let close = take_sign(tokens, to, Sign::CloseParen)?;
    let call = applied(alloc, name, args, close)?;
    Ok((call, to + 1))
}

// Expressions parted by commas.
#[cycle(expression)]
fn read_terms(
    alloc: Global,
    tokens: &TokenList,
    at: usize,
    depth: usize,
) -> Result<(List<Expr>, usize), Refusal>
    requires within { at ≤ length tokens.now }
    requires shallow { depth ≤ DEPTH_LIMIT }
    ensures { Answered (λ p. trees p) (items_wants of_exprs depth) [] tokens.now 1 at result }
{
    let mut found = List::new(alloc);
    let (first, to) = read_expr(alloc, tokens, at, depth)?;
    found.push(first)?;
    let mut end = to;
    while stands_sign(tokens, end, Sign::Comma) {
        let (term, to) = read_expr(alloc, tokens, end + 1, depth)?;
        found.push(term)?;
        end = to;
    }
    Ok((found, end))
}

// An expression in round brackets, with its sort or without.
#[cycle(expression)]
fn read_brackets(
    alloc: Global,
    opener: Token,
    tokens: &TokenList,
    at: usize,
    depth: usize,
) -> Result<(Expr, usize), Refusal>
    requires within { at ≤ length tokens.now }
    requires shallow { depth ≤ DEPTH_LIMIT }
    requires here { IsAt tokens.now at opener }
    requires sign { same opener.kind (kind.Sign sign.OpenParen) ≡ true }
    ensures { Answered (λ p. tree p) (an_atom depth ∷ []) [] tokens.now 8 at result }
{
    let inner = deeper(depth, at)?;
    let (body, to) = read_expr(alloc, tokens, at + 1, inner)?;
    if stands_sign(tokens, to, Sign::Colon) {
        return read_ascribed(alloc, opener, body, tokens, to, inner);
    }
    let close = take_sign(tokens, to, Sign::CloseParen)?;
    let inside = bracketed(alloc, opener, body, close)?;
    Ok((inside, to + 1))
}

// The sort of an expression in brackets, from its colon on.
fn read_ascribed(
    alloc: Global,
    opener: Token,
    body: Expr,
    tokens: &TokenList,
    at: usize,
    depth: usize,
) -> Result<(Expr, usize), Refusal>
    requires within { at < length tokens.now }
    requires room { length tokens.now < 2 ^ 64 }
    requires shallow { depth ≤ DEPTH_LIMIT }
    ensures { (d : ℕ) → d ≤ DEPTH_LIMIT
        → Answered (λ p. tree p) (ascribed_wants depth d) (tree body ∷ token opener ∷ []) tokens.now 8 (at + 1) result }
{
    let (sort, to) = read_type(alloc, tokens, at + 1, depth)?;
    let close = take_sign(tokens, to, Sign::CloseParen)?;
    let stated = ascribed(alloc, opener, body, sort, close)?;
    Ok((stated, to + 1))
}

#[cycle(expression)]
fn read_distinct(
    alloc: Global,
    first: Token,
    tokens: &TokenList,
    at: usize,
    depth: usize,
) -> Result<(Expr, usize), Refusal>
    requires within { at ≤ length tokens.now }
    requires shallow { depth ≤ DEPTH_LIMIT }
    ensures { Answered (λ p. tree p) (distinct_wants depth) (token first ∷ []) tokens.now 8 at result }
{
    take_sign(tokens, at, Sign::OpenParen)?;
    let inner = deeper(depth, at)?;
    let (terms, to) = read_terms(alloc, tokens, at + 1, inner)?;
    let close = take_sign(tokens, to, Sign::CloseParen)?;
    let all_differ = distinct_of(alloc, first, terms, close)?;
    Ok((all_differ, to + 1))
}

// A record, or a record with some fields changed: `=` after one name tells the first.
#[cycle(expression)]
fn read_braces(
    alloc: Global,
    opener: Token,
    tokens: &TokenList,
    at: usize,
    depth: usize,
) -> Result<(Expr, usize), Refusal>
    requires within { at ≤ length tokens.now }
    requires shallow { depth ≤ DEPTH_LIMIT }
    requires here { IsAt tokens.now at opener }
    requires sign { same opener.kind (kind.Sign sign.OpenBrace) ≡ true }
    ensures { Answered (λ p. tree p) (an_atom depth ∷ []) [] tokens.now 8 at result }
{
    let inner = deeper(depth, at)?;
    if sets(tokens, at + 1) {
        return read_record(alloc, opener, tokens, at + 1, inner);
    }
    read_update(alloc, opener, tokens, at + 1, inner)
}

// Whether a name with `=` stands there.
fn sets(tokens: &TokenList, at: usize) -> bool
    requires { at ≤ length tokens.now }
    ensures { MatchBool result (Sets tokens.now at) (SetsNone tokens.now at) }
{
    stands(tokens, at, TokenKind::Ident) && stands_sign(tokens, at + 1, Sign::Equal)
}

// The values of a record's fields, and its bracket.
#[cycle(expression)]
fn read_record(
    alloc: Global,
    opener: Token,
    tokens: &TokenList,
    at: usize,
    depth: usize,
) -> Result<(Expr, usize), Refusal>
    requires within { at ≤ length tokens.now }
    requires shallow { depth ≤ DEPTH_LIMIT }
    ensures { (d : ℕ) → d ≤ DEPTH_LIMIT → Answered (λ p. tree p) (record_wants depth d) (token opener ∷ []) tokens.now 8 at result }
{
    let (settings, to) = read_settings(alloc, tokens, at, depth)?;
    let close = take_sign(tokens, to, Sign::CloseBrace)?;
    let built = record_of(alloc, opener, settings, close)?;
    Ok((built, to + 1))
}

// The record whose fields are changed, the values of these, and the bracket.
#[cycle(expression)]
fn read_update(
    alloc: Global,
    opener: Token,
    tokens: &TokenList,
    at: usize,
    depth: usize,
) -> Result<(Expr, usize), Refusal>
    requires within { at ≤ length tokens.now }
    requires shallow { depth ≤ DEPTH_LIMIT }
    ensures { (d : ℕ) → d ≤ DEPTH_LIMIT → Answered (λ p. tree p) (change_wants depth d) (token opener ∷ []) tokens.now 8 at result }
{
    let (base, to) = read_post(alloc, tokens, at, depth)?;
    take_word(tokens, to, Reserved::With)?;
    let (settings, to) = read_settings(alloc, tokens, to + 1, depth)?;
    let close = take_sign(tokens, to, Sign::CloseBrace)?;
    let changed = update_of(alloc, opener, base, settings, close)?;
    Ok((changed, to + 1))
}

// Values of fields parted by semicolons.
#[cycle(expression)]
fn read_settings(
    alloc: Global,
    tokens: &TokenList,
    at: usize,
    depth: usize,
) -> Result<(List<Setting>, usize), Refusal>
    requires within { at ≤ length tokens.now }
    requires shallow { depth ≤ DEPTH_LIMIT }
    ensures { Answered (λ p. settings p) (items_wants of_settings depth) [] tokens.now 1 at result }
{
    let mut found = List::new(alloc);
    let (first, to) = read_setting(alloc, tokens, at, depth)?;
    found.push(first)?;
    let mut end = to;
    while stands_sign(tokens, end, Sign::Semicolon) {
        let (setting, to) = read_setting(alloc, tokens, end + 1, depth)?;
        found.push(setting)?;
        end = to;
    }
    Ok((found, end))
}

#[cycle(expression)]
fn read_setting(
    alloc: Global,
    tokens: &TokenList,
    at: usize,
    depth: usize,
) -> Result<(Setting, usize), Refusal>
    requires within { at ≤ length tokens.now }
    requires shallow { depth ≤ DEPTH_LIMIT }
    ensures { Answered (λ p. setting p) (element_wants of_settings depth) [] tokens.now 1 at result }
{
    let name = take(tokens, at, TokenKind::Ident)?;
    take_sign(tokens, at + 1, Sign::Equal)?;
    let (value, to) = read_expr(alloc, tokens, at + 2, depth)?;
    Ok((setting_of(name, value), to))
}
