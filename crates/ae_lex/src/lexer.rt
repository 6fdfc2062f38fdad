//! The lexer. It goes through the bytes once, and looks at most two bytes ahead.

ghost use Rattle.std.specs.Prelude.{◌≡◌, ◌∷◌, ◌<◌, ◌≤◌, ◌+◌, ◌-◌, List, ℕ, length, drop, IfOk, IfErr, IfSome, IfNone, IsTrue, ◌≢◌};
ghost use Rattle.std.specs.Bool.{Decides};
ghost use Rattle.ae_lex.specs.Lexis.{is_digit, is_letter, IsTokenized, IsFault, IsOutsideMark};
ghost use Rattle.ae_lex.specs.Inner.Pieces.{HasByte, Stands, IsEnded, IsMark};
ghost use Rattle.ae_lex.specs.declared.kinds.LexFault.TheVariants.{Memory};
ghost use Rattle.ae_lex.specs.declared.kinds.Token.{Token};

use crate::kinds::{LexFault, Sign, Token, TokenKind};
use crate::numerals::{decimal_kind, digits, power_of_ten, whole_kind};
use crate::scans::{comment_end, has_point, is_blank, is_digit, is_letter, next, word_end};
use crate::spellings::{begins, longest_sign, reserved};
use crate::token_list::{TokenList, narrow};
use std::alloc::Global;

/// What stands at a place, and where it ends.
#[derive(Clone, Copy)]
pub enum Piece {
    Gap(usize),
    Token(TokenKind, usize),
    Fault(LexFault),
}

// A numeral of this kind, or a wide one, that ends at `to`.
fn ended(text: &[u8], at: usize, to: usize, kind: Option<TokenKind>) -> Piece
    requires { to ≤ length text.now }
    ensures { IsEnded result at to kind (drop to text.now) }
{
    if let Some(byte) = next(text, to)
        && is_letter(byte)
    {
        return Piece::Fault(LexFault::OutsideProfile { at });
    }
    match kind {
        Some(kind) => Piece::Token(kind, to),
        None => Piece::Fault(LexFault::WideLiteral { at }),
    }
}

fn numeral(text: &[u8], at: usize, byte: u8) -> Piece
    requires here { HasByte text.now at byte }
    requires digit { IsTrue (is_digit byte) }
    ensures { Stands result at text.now }
{
    let front = digits(text, at, Some(0));
    if !has_point(text, front.to) {
        return ended(text, at, front.to, whole_kind(front.value));
    }
    let back = digits(text, front.to + 1, front.value);
    let power = power_of_ten(back.to - front.to - 1);
    ended(text, at, back.to, decimal_kind(back.value, power))
}

fn word(text: &[u8], at: usize, byte: u8) -> Piece
    requires here { HasByte text.now at byte }
    requires letter { IsTrue (is_letter byte) }
    ensures { Stands result at text.now }
{
    let to = word_end(text, at + 1);
    let kind = match reserved(&text[at..to]) {
        Some(word) => TokenKind::Reserved(word),
        None => TokenKind::Ident,
    };
    Piece::Token(kind, to)
}

// What stands at a `'`.
fn type_var(text: &[u8], at: usize) -> Piece
    requires { HasByte text.now at 39 }
    ensures { Stands result at text.now }
{
    match next(text, at + 1) {
        Some(byte) if is_letter(byte) => Piece::Token(TokenKind::TypeVar, word_end(text, at + 2)),
        _ => Piece::Fault(LexFault::BadByte { at }),
    }
}

// What the language has and this profile leaves out, numerals aside.
fn is_outside(rest: &[u8]) -> bool
    ensures { Decides result (IsOutsideMark rest.now) }
{
    begins(rest, b"**")
        || begins(rest, b"|->")
        || begins(rest, b"\"")
        || begins(rest, b"^")
        || begins(rest, b"@")
}

// What stands at a byte that begins no blank, no word, no numeral and no type variable.
fn mark(text: &[u8], at: usize, byte: u8) -> Piece
    requires here { HasByte text.now at byte }
    requires other { IsMark byte }
    ensures { Stands result at text.now }
{
    let rest = &text[at..];
    if begins(rest, b"(*") {
        return match comment_end(text, at + 2) {
            Some(to) => Piece::Gap(to),
            None => Piece::Fault(LexFault::OpenComment { at }),
        };
    }
    if is_outside(rest) {
        return Piece::Fault(LexFault::OutsideProfile { at });
    }
    match longest_sign(rest) {
        Some(sign) => Piece::Token(TokenKind::Sign(sign), at + sign.spelling().len()),
        None => Piece::Fault(LexFault::BadByte { at }),
    }
}

// What stands at a place.
fn first(text: &[u8], at: usize, byte: u8) -> Piece
    requires { HasByte text.now at byte }
    ensures { Stands result at text.now }
{
    if is_blank(byte) {
        Piece::Gap(at + 1)
    } else if is_letter(byte) {
        word(text, at, byte)
    } else if is_digit(byte) {
        numeral(text, at, byte)
    } else if byte == b'\'' {
        type_var(text, at)
    } else {
        mark(text, at, byte)
    }
}

/// The leftmost fault of a text, or none where it has tokens. It takes no memory, so each text has the
/// one or the other.
pub fn first_fault(text: &[u8]) -> Option<LexFault>
    ensures fault { IfSome result (λ f. IsFault text.now f) }
    ensures none { IfNone result ((found : List Token) × IsTokenized text.now found) }
{
    let mut at = 0;
    while let Some(byte) = next(text, at) {
        match first(text, at, byte) {
            Piece::Gap(to) => at = to,
            Piece::Token(_, to) => at = to,
            Piece::Fault(fault) => return Some(fault),
        }
    }
    None
}

/// The tokens of a text in order, with their places, or its leftmost fault. `Memory` says that there was
/// no memory for the tokens; places of 2^32 and more count for that.
pub fn tokens(alloc: Global, text: &[u8]) -> Result<TokenList, LexFault>
    ensures tokens { IfOk result (λ found. IsTokenized text.now found) }
    ensures fault { IfErr result (λ f. f ≢ Memory → IsFault text.now f) }
{
    let mut found = TokenList::new(alloc);
    let mut at = 0;
    while let Some(byte) = next(text, at) {
        match first(text, at, byte) {
            Piece::Gap(to) => at = to,
            Piece::Token(kind, to) => {
                found.push(Token {
                    kind,
                    from: narrow(at)?,
                    to: narrow(to)?,
                })?;
                at = to;
            }
            Piece::Fault(fault) => return Err(fault),
        }
    }
    Ok(found)
}
