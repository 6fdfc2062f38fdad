//! How reserved words and signs are written.

ghost use Rattle.std.specs.Prelude.{◌≡◌, ◌≢◌, ◌≤◌, ◌<◌, ℕ, length, slice_index_or, IfSome, IfNone};
ghost use Rattle.std.specs.Bool.{Decides};
ghost use Rattle.ae_lex.specs.declared.kinds.Reserved.{Reserved};
ghost use Rattle.ae_lex.specs.declared.kinds.Sign.{Sign};
ghost use Rattle.ae_lex.specs.Lexis.{Begins};
ghost use Rattle.ae_lex.specs.Inner.Pieces.{IsFirstSign};
ghost use Rattle.ae_lex.specs.Spellings.{word_bytes, sign_bytes};

use crate::kinds::{Reserved, Sign};

/// Each reserved word once.
pub const RESERVED: [Reserved; 39] = [
    Reserved::Ac,
    Reserved::And,
    Reserved::Axiom,
    Reserved::Bool,
    Reserved::Bitv,
    Reserved::CaseSplit,
    Reserved::Check,
    Reserved::CheckSat,
    Reserved::Cut,
    Reserved::Distinct,
    Reserved::Else,
    Reserved::End,
    Reserved::Exists,
    Reserved::Extends,
    Reserved::False,
    Reserved::Forall,
    Reserved::Function,
    Reserved::Goal,
    Reserved::If,
    Reserved::In,
    Reserved::Int,
    Reserved::Let,
    Reserved::Logic,
    Reserved::Match,
    Reserved::Not,
    Reserved::Of,
    Reserved::Or,
    Reserved::Predicate,
    Reserved::Prop,
    Reserved::Real,
    Reserved::Rewriting,
    Reserved::Then,
    Reserved::Theory,
    Reserved::True,
    Reserved::Type_,
    Reserved::Unit,
    Reserved::Void,
    Reserved::With,
    Reserved::Xor,
];

/// Each sign once, the longer ones first.
pub const SIGNS: [Sign; 24] = [
    Sign::Iff,
    Sign::Arrow,
    Sign::NotEqual,
    Sign::AtMost,
    Sign::AtLeast,
    Sign::Less,
    Sign::Greater,
    Sign::Equal,
    Sign::Plus,
    Sign::Minus,
    Sign::Star,
    Sign::Slash,
    Sign::Percent,
    Sign::OpenParen,
    Sign::CloseParen,
    Sign::OpenBrace,
    Sign::CloseBrace,
    Sign::OpenBracket,
    Sign::CloseBracket,
    Sign::Comma,
    Sign::Colon,
    Sign::Semicolon,
    Sign::Dot,
    Sign::Bar,
];

impl Reserved {
    /// The bytes of the word.
    pub fn spelling(self) -> &'static [u8]
        ensures { result.now ≡ word_bytes self }
    {
        match self {
            Reserved::Ac => b"ac",
            Reserved::And => b"and",
            Reserved::Axiom => b"axiom",
            Reserved::Bool => b"bool",
            Reserved::Bitv => b"bitv",
            Reserved::CaseSplit => b"case_split",
            Reserved::Check => b"check",
            Reserved::CheckSat => b"check_sat",
            Reserved::Cut => b"cut",
            Reserved::Distinct => b"distinct",
            Reserved::Else => b"else",
            Reserved::End => b"end",
            Reserved::Exists => b"exists",
            Reserved::Extends => b"extends",
            Reserved::False => b"false",
            Reserved::Forall => b"forall",
            Reserved::Function => b"function",
            Reserved::Goal => b"goal",
            Reserved::If => b"if",
            Reserved::In => b"in",
            Reserved::Int => b"int",
            Reserved::Let => b"let",
            Reserved::Logic => b"logic",
            Reserved::Match => b"match",
            Reserved::Not => b"not",
            Reserved::Of => b"of",
            Reserved::Or => b"or",
            Reserved::Predicate => b"predicate",
            Reserved::Prop => b"prop",
            Reserved::Real => b"real",
            Reserved::Rewriting => b"rewriting",
            Reserved::Then => b"then",
            Reserved::Theory => b"theory",
            Reserved::True => b"true",
            Reserved::Type_ => b"type",
            Reserved::Unit => b"unit",
            Reserved::Void => b"void",
            Reserved::With => b"with",
            Reserved::Xor => b"xor",
        }
    }
}

impl Sign {
    /// The bytes of the sign.
    pub fn spelling(self) -> &'static [u8]
        ensures { result.now ≡ sign_bytes self }
    {
        match self {
            Sign::Arrow => b"->",
            Sign::Iff => b"<->",
            Sign::NotEqual => b"<>",
            Sign::AtMost => b"<=",
            Sign::AtLeast => b">=",
            Sign::Less => b"<",
            Sign::Greater => b">",
            Sign::Equal => b"=",
            Sign::Plus => b"+",
            Sign::Minus => b"-",
            Sign::Star => b"*",
            Sign::Slash => b"/",
            Sign::Percent => b"%",
            Sign::OpenParen => b"(",
            Sign::CloseParen => b")",
            Sign::OpenBrace => b"{",
            Sign::CloseBrace => b"}",
            Sign::OpenBracket => b"[",
            Sign::CloseBracket => b"]",
            Sign::Comma => b",",
            Sign::Colon => b":",
            Sign::Semicolon => b";",
            Sign::Dot => b".",
            Sign::Bar => b"|",
        }
    }
}

/// Whether the bytes begin with these.
pub fn begins(bytes: &[u8], with: &[u8]) -> bool
    ensures { Decides result (Begins with.now bytes.now) }
{
    bytes.starts_with(with)
}

fn is_spelled(word: &[u8], spelling: &[u8]) -> bool
    ensures { Decides result (word.now ≡ spelling.now) }
{
    word == spelling
}

// The word among these that is written so.
fn reserved_among(word: &[u8], words: &[Reserved]) -> Option<Reserved>
    ensures some { IfSome result (λ r. word.now ≡ word_bytes r) }
    ensures none { IfNone result ((k : ℕ) (d : Reserved) → k < length words.now → word.now ≢ word_bytes (slice_index_or words.now k d)) }
{
    for reserved in words {
        if is_spelled(word, reserved.spelling()) {
            return Some(*reserved);
        }
    }
    None
}

/// The reserved word of these bytes, or none where they are none.
pub fn reserved(word: &[u8]) -> Option<Reserved>
    ensures some { IfSome result (λ r. word.now ≡ word_bytes r) }
    ensures none { IfNone result ((r : Reserved) → word.now ≢ word_bytes r) }
{
    reserved_among(word, &RESERVED)
}

// The first of these signs with which the bytes begin.
fn sign_among(bytes: &[u8], signs: &[Sign]) -> Option<Sign>
    ensures some { IfSome result (λ s. IsFirstSign s bytes.now signs.now) }
    ensures none { IfNone result ((k : ℕ) (d : Sign) → k < length signs.now → ¬ Begins (sign_bytes (slice_index_or signs.now k d)) bytes.now) }
{
    for sign in signs {
        if begins(bytes, sign.spelling()) {
            return Some(*sign);
        }
    }
    None
}

/// The longest sign with which the bytes begin, or none where they begin with none.
pub fn longest_sign(bytes: &[u8]) -> Option<Sign>
    ensures some { IfSome result (λ s. Begins (sign_bytes s) bytes.now) }
    ensures longest { IfSome result (λ s. (t : Sign) → Begins (sign_bytes t) bytes.now → length (sign_bytes t) ≤ length (sign_bytes s)) }
    ensures none { IfNone result ((t : Sign) → ¬ Begins (sign_bytes t) bytes.now) }
{
    sign_among(bytes, &SIGNS)
}
