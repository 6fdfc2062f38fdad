//! What a token is, and why a text has none.

ghost use Rattle.std.specs.Prelude.{◌≡◌};
ghost use Rattle.ae_lex.specs.declared.kinds.LexFault.TheVariants.{Memory};

use std::alloc::{AllocError, AllocFailed};
use thiserror::Error;

/// A token: what it is, and that it is the bytes of the text from `from` up to `to`, without the
/// byte at `to`. Places have 32 bits.
#[derive(Clone, Copy, Debug, PartialEq, Eq)]
pub struct Token {
    pub kind: TokenKind,
    pub from: u32,
    pub to: u32,
}

/// What a token is, with the value of a numeral.
#[derive(Clone, Copy, Debug, PartialEq, Eq)]
pub enum TokenKind {
    /// A letter or `_`, then letters, digits, `_` and `?`; no reserved word.
    Ident,
    /// `'` directly followed by a letter or `_`, then letters, digits, `_` and `?`.
    TypeVar,
    /// One or more digits, with their value, from 0 to 2^127 - 1.
    Whole(i128),
    /// One or more digits, a point and zero or more digits. The value is `top / bottom` in lowest
    /// terms, with `top` from 0 and `bottom` from 1 to 2^127 - 1.
    Decimal { top: i128, bottom: i128 },
    Reserved(Reserved),
    Sign(Sign),
}

/// The words that aren't identifiers.
#[derive(Clone, Copy, Debug, PartialEq, Eq)]
pub enum Reserved {
    Ac,
    And,
    Axiom,
    Bool,
    Bitv,
    CaseSplit,
    Check,
    CheckSat,
    Cut,
    Distinct,
    Else,
    End,
    Exists,
    Extends,
    False,
    Forall,
    Function,
    Goal,
    If,
    In,
    Int,
    Let,
    Logic,
    Match,
    Not,
    Of,
    Or,
    Predicate,
    Prop,
    Real,
    Rewriting,
    Then,
    Theory,
    True,
    Type_,
    Unit,
    Void,
    With,
    Xor,
}

/// The signs, the longer ones first.
#[derive(Clone, Copy, Debug, PartialEq, Eq)]
pub enum Sign {
    /// `<->`
    Iff,
    /// `->`
    Arrow,
    /// `<>`
    NotEqual,
    /// `<=`
    AtMost,
    /// `>=`
    AtLeast,
    /// `<`
    Less,
    /// `>`
    Greater,
    /// `=`
    Equal,
    /// `+`
    Plus,
    /// `-`
    Minus,
    /// `*`
    Star,
    /// `/`
    Slash,
    /// `%`
    Percent,
    /// `(`
    OpenParen,
    /// `)`
    CloseParen,
    /// `{`
    OpenBrace,
    /// `}`
    CloseBrace,
    /// `[`
    OpenBracket,
    /// `]`
    CloseBracket,
    /// `,`
    Comma,
    /// `:`
    Colon,
    /// `;`
    Semicolon,
    /// `.`
    Dot,
    /// The bar.
    Bar,
}

/// Why a text has no tokens, and at which byte.
#[derive(Clone, Copy, Debug, PartialEq, Eq, Error)]
pub enum LexFault {
    /// A byte that isn't in a comment, and begins neither a blank nor a token nor what the profile
    /// leaves out.
    #[error("bad byte at {at}")]
    BadByte { at: usize },
    /// The outermost `(*` that no `*)` closes.
    #[error("open comment at {at}")]
    OpenComment { at: usize },
    /// A numeral whose digits without the point, or whose power of ten, exceed 2^127 - 1.
    #[error("wide literal at {at}")]
    WideLiteral { at: usize },
    /// A numeral directly followed by a letter or `_`, `**`, a bar directly followed by `->`, or one
    /// of the bytes `"`, `^` and `@`.
    #[error("outside profile at {at}")]
    OutsideProfile { at: usize },
    /// There was no memory for the tokens, or the text has 4 GiB or more, and a token stands beyond them.
    #[error("out of memory")]
    Memory,
}

impl From<AllocError> for LexFault {
    ghost from_gives = { λ _ e. e ≡ Memory };

    fn from(_error: AllocError) -> LexFault {
        LexFault::Memory
    }
}

impl<T: Drop> From<AllocFailed<T>> for LexFault {
    ghost from_gives = { λ _ e. e ≡ Memory };

    fn from(_error: AllocFailed<T>) -> LexFault {
        LexFault::Memory
    }
}
