//! The tokens of a text, kept in little memory: 16 bytes for each, and 48 more for a numeral.

ghost use Rattle.std.specs.Prelude.{◌≡◌, ◌++◌, ◌∷◌, [], length, slice_get, IfOk, OnOk, OnErr};
ghost use Rattle.ae_lex.specs.Inner.KeptTokens.{kind_of, IsNumbered, Grows};

use crate::kinds::{Reserved, Sign, Token, TokenKind};
use ae_base::lists::List;
use std::alloc::{AllocError, Global};
use std::marker::Model;

/// A token as it is kept.
#[derive(Clone, Copy)]
pub struct KeptToken {
    kind: KeptKind,
    from: u32,
    to: u32,
}

/// What a kept token is. A numeral is told by its place among the numerals.
#[derive(Clone, Copy)]
pub enum KeptKind {
    Ident,
    TypeVar,
    Numeral(u32),
    Reserved(Reserved),
    Sign(Sign),
}

/// Tokens in their order. Contracts see the list of them.
#[derive(Drop)]
pub struct TokenList {
    kept: List<KeptToken>,
    numerals: List<TokenKind>,
}

impl Model for TokenList {
    ghost use Rattle.std.specs.Prelude.{List};
    ghost use Rattle.ae_lex.specs.declared.kinds.Token.{Token};

    ghost Value = { List Token };

    ghost use Rattle.ae_lex.specs.Inner.KeptTokens.{tokens_of, AreNumbered};

    ghost view = { λ a. tokens_of a.numerals a.kept };

    ghost invariant = { λ a. AreNumbered a.numerals a.kept };
}

/// A number in 32 bits; from 2^32 on, `Err`, as where there is no memory.
pub fn narrow(number: usize) -> Result<u32, AllocError>
    ensures { IfOk result (λ n. n ≡ number) }
{
    if number <= u32::MAX as usize {
        Ok(number as u32)
    } else {
        Err(AllocError)
    }
}

// How a kind is kept. A numeral becomes the last of the numerals.
fn keep(numerals: &mut List<TokenKind>, kind: TokenKind) -> Result<KeptKind, AllocError>
    ensures kind { IfOk result (λ k. IsNumbered numerals.new k × (kind_of numerals.new k ≡ kind)) }
    ensures more { Grows numerals.old numerals.new }
{
    match kind {
        TokenKind::Ident => Ok(KeptKind::Ident),
        TokenKind::TypeVar => Ok(KeptKind::TypeVar),
        TokenKind::Reserved(word) => Ok(KeptKind::Reserved(word)),
        TokenKind::Sign(sign) => Ok(KeptKind::Sign(sign)),
        TokenKind::Whole(_) | TokenKind::Decimal { .. } => {
            let number = narrow(numerals.len())?;
            numerals.push(kind)?;
            Ok(KeptKind::Numeral(number))
        }
    }
}

// The kind that is kept so.
fn kept(numerals: &[TokenKind], kind: KeptKind) -> TokenKind
    requires { IsNumbered numerals.now kind }
    ensures { result ≡ kind_of numerals.now kind }
{
    match kind {
        KeptKind::Ident => TokenKind::Ident,
        KeptKind::TypeVar => TokenKind::TypeVar,
        KeptKind::Numeral(number) => numerals[number as usize],
        KeptKind::Reserved(word) => TokenKind::Reserved(word),
        KeptKind::Sign(sign) => TokenKind::Sign(sign),
    }
}

impl TokenList {
    /// No tokens.
    pub fn new(alloc: Global) -> TokenList
        ensures { result ≡ [] }
    {
        TokenList {
            kept: List::new(alloc),
            numerals: List::new(alloc),
        }
    }

    /// How many tokens there are.
    pub fn len(&self) -> usize
        ensures { result ≡ length self.now }
    {
        self.kept.len()
    }

    /// The token at a place, counted from 0; none from the end on.
    pub fn get(&self, at: usize) -> Option<Token>
        ensures { result ≡ slice_get self.now at }
    {
        let token = self.kept.get(at)?;
        Some(Token {
            kind: kept(self.numerals.as_slice(), token.kind),
            from: token.from,
            to: token.to,
        })
    }

    /// Puts a token at the end. Where there is no memory for it, or 2^32 numerals stand, `Err`, and the
    /// tokens are as before.
    pub fn push(&mut self, token: Token) -> Result<(), AllocError>
        ensures ok { OnOk result (self.new ≡ self.old ++ token ∷ []) }
        ensures err { OnErr result (self.new ≡ self.old) }
    {
        let kind = keep(&mut self.numerals, token.kind)?;
        self.kept.push(KeptToken {
            kind,
            from: token.from,
            to: token.to,
        })?;
        Ok(())
    }
}
