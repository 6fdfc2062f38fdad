//! The parser.

ghost use Rattle.std.specs.Prelude.{◌≡◌, ◌≢◌, ◌≤◌, ◌-◌, drop, length, IfOk, IfErr};
ghost use Rattle.ae_syntax.specs.declared.faults.SyntaxFault.TheVariants as outcome;
ghost use Rattle.ae_syntax.specs.Files as files;
ghost use Rattle.ae_syntax.specs.Kinds as kinds;
ghost use Rattle.ae_syntax.specs.Inner.ReadingDecls.{FaultOf, FileRead, IsPlaced};

use crate::cursor::next;
use crate::decls::{Decl, File};
use crate::faults::{Refusal, SyntaxFault};
use crate::read_decls::read_decl;
use crate::spans::List;
use ae_lex::{Reserved, Token, TokenKind, TokenList};
use std::alloc::Global;

// The words of the language that the profile leaves out.
fn is_outside(kind: TokenKind) -> bool
    ensures { result ≡ kinds.is_outside kind }
{
    matches!(
        kind,
        TokenKind::Reserved(
            Reserved::Bitv
                | Reserved::CaseSplit
                | Reserved::Check
                | Reserved::CheckSat
                | Reserved::Cut
                | Reserved::End
                | Reserved::Extends
                | Reserved::Match
                | Reserved::Of
                | Reserved::Rewriting
                | Reserved::Theory
        )
    )
}

// Where the token stands in the text, or the text's end.
fn place(text: &[u8], tokens: &TokenList, at: usize) -> usize
    requires within { at ≤ length tokens.now }
    ensures { result ≡ files.place text.now (drop at tokens.now) }
{
    match next(tokens, at) {
        Some(token) => token.from as usize,
        None => text.len(),
    }
}

// Whether a word that the profile leaves out stands there.
fn stands_outside(tokens: &TokenList, at: usize) -> bool
    requires within { at ≤ length tokens.now }
    ensures { result ≡ files.next_is_outside (drop at tokens.now) }
{
    match next(tokens, at) {
        Some(token) => is_outside(token.kind),
        None => false,
    }
}

// The fault that a refusal is.
fn fault(text: &[u8], tokens: &TokenList, refusal: Refusal) -> SyntaxFault
    requires within { IsPlaced tokens.now refusal }
    ensures { FaultOf text.now tokens.now refusal result }
{
    match refusal {
        Refusal::Memory => SyntaxFault::Memory,
        Refusal::Deep { at } => SyntaxFault::TooDeep {
            at: place(text, tokens, at),
        },
        Refusal::Wrong { at } => {
            let byte = place(text, tokens, at);
            if stands_outside(tokens, at) {
                SyntaxFault::OutsideProfile { at: byte }
            } else {
                SyntaxFault::Unexpected { at: byte }
            }
        }
    }
}

// The declarations of all the tokens.
fn read_file(alloc: Global, tokens: &TokenList) -> Result<List<Decl>, Refusal>
    ensures { FileRead tokens.now result }
{
    let mut found = List::new(alloc);
    let mut at = 0;
    while let Some(first) = next(tokens, at) {
        let (decl, to) = read_decl(alloc, first, tokens, at)?;
        found.push(decl)?;
        at = to;
    }
    Ok(found)
}

/// The tree of a text's tokens. `Unexpected` and `OutsideProfile` stand at the first token with which
/// no file continues the tokens before it, or at the text's end if no file is these tokens;
/// `TooDeep` stands at the first token of a depth above 1,000, if it comes earlier. `Memory` says that
/// there was no memory for the tree. It descends by precedence and never goes back.
pub fn parse(alloc: Global, text: &[u8], tokens: &TokenList) -> Result<File, SyntaxFault>
    ensures tree { IfOk result (λ f. files.IsParsed tokens.now f) }
    ensures fault { IfErr result (λ e. e ≢ outcome.Memory → files.IsSyntaxFault text.now tokens.now e) }
{
    match read_file(alloc, tokens) {
        Ok(decls) => Ok(File { decls }),
        Err(refusal) => Err(fault(text, tokens, refusal)),
    }
}
