//! Why a text is refused.

use ae_lex::LexFault;
use ae_readers::Fault;
use ae_syntax::SyntaxFault;

/// Why a text is refused as a whole.
#[derive(Clone, Copy, PartialEq, Eq)]
pub enum Refusal {
    /// It has no tokens.
    Lex(LexFault),
    /// Its tokens are no file.
    Syntax(SyntaxFault),
    /// What should be the text of a proof, a state, a journal or a width is none.
    Proof(Fault),
    /// No line parts the problem from the answers that are to be checked.
    NoSeparator,
    /// It has more bytes than an input may have.
    TooLong,
}
