//! The lexer of Alt-Ergo's native language, in the profile of this project: the tokens of a text
//! with their places, or its leftmost fault.
//!
//! `specs/Lexis.antt` says what the tokens and the fault of a text are, as a relation over its bytes:
//! the text is cut into blanks, comments and tokens, in order and without a rest. [`tokens`] answers
//! these tokens or this fault, [`first_fault`] shows that each text has the one or the other, and
//! [`one_answer`] that no text has two of them.
//!
//! Where the forms of tokens leave a choice:
//!
//! - Comments nest. `(*` and `*)` are read as two bytes at once, so `(*)` is open and `(*)*)` whole.
//! - Each token is the longest one, and what follows a numeral is asked after that: `1.x` is the
//!   numeral `1.` before a letter, and so outside the profile; `1..x` is `1.`, `.` and `x`.
//! - A numeral's width is that of its value, so leading zeros don't count. Each digit after the point
//!   counts for its power of ten: 38 of them are allowed, 39 are wide, also in `0.000..0`.
//! - At a numeral that is too wide and directly followed by a letter, the fault is the letter's.
//! - A `'` without a letter or `_` directly after it is a bad byte.
#![tactic(auto)]

pub mod kinds;
mod laws;
mod lexer;
mod numerals;
mod scans;
mod spellings;
pub mod token_list;

pub use kinds::{LexFault, Reserved, Sign, Token, TokenKind};
pub use laws::{lowest_terms, one_answer};
pub use lexer::{first_fault, tokens};
pub use token_list::TokenList;
