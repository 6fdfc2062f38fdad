//! Reading of types.

ghost use Rattle.std.specs.Prelude.{◌≡◌, ◌≤◌, ◌-◌, [], ◌∷◌, true, length, None};
ghost use Rattle.ae_lex.specs.declared.kinds.Sign.TheVariants as sign;
ghost use Rattle.ae_lex.specs.declared.kinds.TokenKind.TheVariants as kind;
ghost use Rattle.ae_syntax.specs.declared.cursor.TheConstants.{DEPTH_LIMIT};
ghost use Rattle.ae_syntax.specs.Inner.SameKinds.{same};
ghost use Rattle.ae_syntax.specs.Inner.Machine as machine;
ghost use Rattle.ae_syntax.specs.Parts as part;
ghost use Rattle.ae_syntax.specs.Inner.Reading.{Answered, IsAt};
ghost use Rattle.ae_syntax.specs.Inner.ReadingDecls.{MoreSorts};

use crate::cursor::{deeper, is_sign, next, stands_sign, take, take_sign};
use crate::faults::Refusal;
use crate::nodes::{named_after, span};
use crate::spans::List;
use crate::types::{TypeKind, WrittenType};
use ae_lex::{Reserved, Sign, Token, TokenKind, TokenList};
use std::alloc::Global;

// A type that is one token.
fn base_type(alloc: Global, token: Token) -> Option<WrittenType>
    ensures { result ≡ machine.base_type token token.kind }
{
    let kind = match token.kind {
        TokenKind::Reserved(Reserved::Int) => TypeKind::Int,
        TokenKind::Reserved(Reserved::Real) => TypeKind::Real,
        TokenKind::Reserved(Reserved::Bool) => TypeKind::Bool,
        TokenKind::Reserved(Reserved::Unit) => TypeKind::Unit,
        TokenKind::TypeVar => TypeKind::Var,
        TokenKind::Ident => return Some(named_after(span(token), List::new(alloc), token)),
        _ => return None,
    };
    Some(WrittenType {
        span: span(token),
        kind,
    })
}

// The postfix names after a type.
fn more_type(
    alloc: Global,
    left: WrittenType,
    tokens: &TokenList,
    at: usize,
    depth: usize,
) -> Result<(WrittenType, usize), Refusal>
    requires within { at ≤ length tokens.now }
    requires shallow { depth ≤ DEPTH_LIMIT }
    ensures { Answered (λ s. part.sort s) (machine.more_type depth ∷ []) (part.sort left ∷ []) tokens.now 8 at result }
{
    let Ok(name) = take(tokens, at, TokenKind::Ident) else {
        return Ok((left, at));
    };
    let inner = deeper(depth, at)?;
    let first = left.span;
    let mut args = List::new(alloc);
    args.push(left)?;
    more_type(alloc, named_after(first, args, name), tokens, at + 1, inner)
}

/// A type.
#[cycle(sort)]
pub fn read_type(
    alloc: Global,
    tokens: &TokenList,
    at: usize,
    depth: usize,
) -> Result<(WrittenType, usize), Refusal>
    requires within { at ≤ length tokens.now }
    requires shallow { depth ≤ DEPTH_LIMIT }
    ensures { Answered (λ s. part.sort s) (machine.a_type depth ∷ []) [] tokens.now 8 at result }
{
    let Some(first) = next(tokens, at) else {
        return Err(Refusal::Wrong { at });
    };
    if let Some(base) = base_type(alloc, first) {
        return more_type(alloc, base, tokens, at + 1, depth);
    }
    if is_sign(first, Sign::OpenParen) {
        return bracket_sorts(alloc, first, tokens, at, depth);
    }
    Err(Refusal::Wrong { at })
}

// Two and more types in round brackets, with the name after them.
#[cycle(sort)]
fn bracket_sorts(
    alloc: Global,
    open: Token,
    tokens: &TokenList,
    at: usize,
    depth: usize,
) -> Result<(WrittenType, usize), Refusal>
    requires within { at ≤ length tokens.now }
    requires shallow { depth ≤ DEPTH_LIMIT }
    requires here { IsAt tokens.now at «open» }
    requires kind { same «open».kind (kind.Sign sign.OpenParen) ≡ true }
    requires base { machine.base_type «open» «open».kind ≡ None }
    ensures { Answered (λ s. part.sort s) (machine.a_type depth ∷ []) [] tokens.now 8 at result }
{
    let inner = deeper(depth, at)?;
    let (first, to) = read_type(alloc, tokens, at + 1, inner)?;
    take_sign(tokens, to, Sign::Comma)?;
    let (second, to) = read_type(alloc, tokens, to + 1, inner)?;
    let mut args = List::new(alloc);
    args.push(first)?;
    args.push(second)?;
    let (args, to) = more_types(alloc, args, tokens, to, inner)?;
    take_sign(tokens, to, Sign::CloseParen)?;
    let name = take(tokens, to + 1, TokenKind::Ident)?;
    more_type(
        alloc,
        named_after(span(open), args, name),
        tokens,
        to + 2,
        inner,
    )
}

/// More types, each after a comma, put after these ones.
#[cycle(sort)]
pub fn more_types(
    alloc: Global,
    before: List<WrittenType>,
    tokens: &TokenList,
    at: usize,
    depth: usize,
) -> Result<(List<WrittenType>, usize), Refusal>
    requires within { at ≤ length tokens.now }
    requires shallow { depth ≤ DEPTH_LIMIT }
    ensures { MoreSorts before depth tokens.now at result }
{
    let mut found = before;
    let mut at = at;
    while stands_sign(tokens, at, Sign::Comma) {
        let (sort, to) = read_type(alloc, tokens, at + 1, depth)?;
        found.push(sort)?;
        at = to;
    }
    Ok((found, at))
}
