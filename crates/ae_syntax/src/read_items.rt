//! Reading of names parted by a sign.

ghost use Rattle.std.specs.Prelude.{◌≤◌, ◌-◌, length};
ghost use Rattle.ae_syntax.specs.Inner.ReadingDecls.{NamesRead};

use crate::cursor::{stands_sign, take};
use crate::faults::Refusal;
use crate::nodes::span;
use crate::spans::{List, Span};
use ae_lex::{Sign, Token, TokenKind, TokenList};
use std::alloc::Global;

/// One or more tokens of a kind, parted by a sign.
pub fn read_item_list(
    alloc: Global,
    tokens: &TokenList,
    at: usize,
    kind: TokenKind,
    separator: Sign,
) -> Result<(List<Span>, usize), Refusal>
    requires within { at ≤ length tokens.now }
    ensures { NamesRead kind separator tokens.now at result }
{
    let mut found = List::new(alloc);
    let first = take(tokens, at, kind)?;
    found.push(span(first))?;
    let mut to = at + 1;
    while stands_sign(tokens, to, separator) {
        let name = take(tokens, to + 1, kind)?;
        found.push(span(name))?;
        to += 2;
    }
    Ok((found, to))
}
