//! The line by which a text is refused.

ghost use Rattle.std.specs.Prelude.{◌≡◌, ◌++◌, ◌≤◌, length, codes, decimal, nat_eq, take, IfOk, IfSome, OnOk};
ghost use Rattle.ae_lex.specs.Lexis as lexis;
ghost use Rattle.ae_syntax.specs.Files as files;
ghost use Rattle.ae_report.specs.Lines.{IsPlace, IsLineAt, IsRefusalLine, refused_at, lex_words, syntax_words, proof_place, proof_words, words};

use crate::refusal::Refusal;
use ae_lex::LexFault;
use ae_readers::Fault;
use ae_syntax::SyntaxFault;
use itoa::Buffer;
use std::alloc::{AllocError, Global};

/// Where a byte stands: its line and its column, both from 1. A line ends with byte 10, and a column
/// counts bytes.
#[derive(Clone, Copy, Debug, PartialEq, Eq)]
pub struct Place {
    pub line: usize,
    pub column: usize,
}

// Whether a byte ends a line.
fn ends_line(byte: u8) -> bool
    ensures { result ≡ nat_eq byte 10 }
{
    byte == b'\n'
}

/// The line and the column of the byte at `at`, or of the text's end.
pub fn place_of(text: &[u8], at: usize) -> Place
    requires { at ≤ length text.now }
    ensures { IsPlace text.now at result.line result.column }
{
    let mut line = 1;
    let mut column = 1;
    for byte in &text[..at] {
        if ends_line(*byte) {
            line += 1;
            column = 1;
        } else {
            column += 1;
        }
    }
    Place { line, column }
}

// The byte at which the lexer refuses a text, where there is one.
fn lex_refused_at(fault: LexFault) -> Option<usize>
    ensures { result ≡ lexis.fault_place fault }
{
    match fault {
        LexFault::BadByte { at }
        | LexFault::OpenComment { at }
        | LexFault::WideLiteral { at }
        | LexFault::OutsideProfile { at } => Some(at),
        LexFault::Memory => None,
    }
}

// The byte at which the parser refuses a text, where there is one.
fn syntax_refused_at(fault: SyntaxFault) -> Option<usize>
    ensures { result ≡ files.fault_place fault }
{
    match fault {
        SyntaxFault::Unexpected { at }
        | SyntaxFault::TooDeep { at }
        | SyntaxFault::OutsideProfile { at } => Some(at),
        SyntaxFault::Memory => None,
    }
}

// The byte at which the text of an answer is refused, where there is one.
fn proof_refused_at(fault: Fault) -> Option<usize>
    ensures { result ≡ proof_place fault }
{
    match fault {
        Fault::At(at) | Fault::WideNumber(at) => Some(at),
        Fault::Memory => None,
    }
}

// The byte at which a text is refused, where there is one.
fn refused_at(refusal: &Refusal) -> Option<usize>
    ensures { result ≡ refused_at refusal.now }
{
    match refusal {
        Refusal::Lex(fault) => lex_refused_at(*fault),
        Refusal::Syntax(fault) => syntax_refused_at(*fault),
        Refusal::Proof(fault) => proof_refused_at(*fault),
        Refusal::NoSeparator | Refusal::TooLong => None,
    }
}

// Why the lexer refuses a text.
fn lex_words(fault: LexFault) -> &'static str
    ensures { result.now ≡ lex_words fault }
{
    match fault {
        LexFault::BadByte { .. } => "bad byte",
        LexFault::OpenComment { .. } => "open comment",
        LexFault::WideLiteral { .. } => "wide literal",
        LexFault::OutsideProfile { .. } => "outside profile",
        LexFault::Memory => "out of memory",
    }
}

// Why the parser refuses a text.
fn syntax_words(fault: SyntaxFault) -> &'static str
    ensures { result.now ≡ syntax_words fault }
{
    match fault {
        SyntaxFault::Unexpected { .. } => "unexpected",
        SyntaxFault::TooDeep { .. } => "too deep",
        SyntaxFault::OutsideProfile { .. } => "outside profile",
        SyntaxFault::Memory => "out of memory",
    }
}

// Why the text of an answer is refused.
fn proof_words(fault: Fault) -> &'static str
    ensures { result.now ≡ proof_words fault }
{
    match fault {
        Fault::At(_) => "proof text",
        Fault::WideNumber(_) => "wide number",
        Fault::Memory => "out of memory",
    }
}

// Why a text is refused.
fn words(refusal: &Refusal) -> &'static str
    ensures { result.now ≡ words refusal.now }
{
    match refusal {
        Refusal::Lex(fault) => lex_words(*fault),
        Refusal::Syntax(fault) => syntax_words(*fault),
        Refusal::Proof(fault) => proof_words(*fault),
        Refusal::NoSeparator => "no separator",
        Refusal::TooLong => "input too long",
    }
}

// Puts a number's decimal digits at the end.
fn put_number(out: &mut Vec<u8>, n: usize) -> Result<(), AllocError>
    ensures { OnOk result (out.new.items ≡ out.old.items ++ decimal n) }
{
    let mut buffer = Buffer::new();
    out.extend_from_slice(buffer.format(n).as_bytes())
}

// Puts a line and a column at the end, and a blank.
fn put_place(out: &mut Vec<u8>, place: Place) -> Result<(), AllocError>
    ensures { OnOk result (out.new.items ≡ out.old.items ++ decimal place.line ++ codes ":" ++ decimal place.column ++ codes " ") }
{
    put_number(out, place.line)?;
    out.push(b':')?;
    put_number(out, place.column)?;
    out.push(b' ')?;
    Ok(())
}

// The line with these words, at this place where there is one.
fn line_at(alloc: Global, text: &[u8], at: Option<usize>, why: &str) -> Result<Vec<u8>, AllocError>
    requires { IfSome at (λ at. at ≤ length text.now) }
    ensures { IfOk result (λ line. IsLineAt text.now at why.now line.items) }
{
    let mut line = Vec::new(alloc);
    line.extend_from_slice(b"refused ")?;
    if let Some(at) = at {
        put_place(&mut line, place_of(text, at))?;
    }
    line.extend_from_slice(why.as_bytes())?;
    line.push(b'\n')?;
    Ok(line)
}

/// The line by which a text is refused: `refused`, the line and the column of its first faulty byte
/// where there is one, and why. Want of memory is no refusal; its line has no place.
pub fn refusal_text(alloc: Global, text: &[u8], refusal: &Refusal) -> Result<Vec<u8>, AllocError>
    requires within { IfSome (refused_at refusal.now) (λ at. at ≤ length text.now) }
    ensures { IfOk result (λ line. IsRefusalLine text.now refusal.now line.items) }
{
    line_at(alloc, text, refused_at(refusal), words(refusal))
}
