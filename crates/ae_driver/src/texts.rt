//! Reads the problems of texts.

ghost use Rattle.std.specs.Prelude.{◌≢◌, IfOk, IfErr};
ghost use Rattle.ae_elaborate.specs.Faults as typing;
ghost use Rattle.ae_lex.specs.Lexis.{IsTokenized, IsFault};
ghost use Rattle.ae_lex.specs.declared.kinds.LexFault.TheVariants.{Memory as NoMemoryForTokens};
ghost use Rattle.ae_syntax.specs.Files.{IsSyntaxFault};
ghost use Rattle.ae_syntax.specs.declared.faults.SyntaxFault.TheVariants.{Memory as NoMemoryForTree};
ghost use Rattle.ae_driver.specs.Problems.{IsFileOf, IsProblemOf};
ghost use Rattle.ae_driver.specs.Inner.Endings.{IsNotRead};

use crate::reasons::Reason;
use ae_core::problems::Problem;
use ae_elab::TypeFault;
use ae_elaborate::elaborate;
use ae_lex::{LexFault, TokenList, tokens};
use ae_report::Refusal;
use ae_syntax::decls::File;
use ae_syntax::{SyntaxFault, parse};
use std::alloc::Global;

/// Why no problem is read.
#[derive(Drop)]
pub enum NotRead {
    /// The bytes have none.
    Refused(Reason),
    /// There was no memory for it.
    Memory,
}

// Why a text that has no tokens has no problem.
fn without_tokens(text: &[u8], fault: LexFault) -> NotRead
    requires { fault ≢ NoMemoryForTokens → IsFault text.now fault }
    ensures { IsNotRead text.now result }
{
    match fault {
        LexFault::Memory => NotRead::Memory,
        _ => NotRead::Refused(Reason::Plain(Refusal::Lex(fault))),
    }
}

// Why a text whose tokens are no file has no problem.
fn without_file(text: &[u8], tokens: &TokenList, fault: SyntaxFault) -> NotRead
    requires { IsTokenized text.now tokens.now × (fault ≢ NoMemoryForTree → IsSyntaxFault text.now tokens.now fault) }
    ensures { IsNotRead text.now result }
{
    match fault {
        SyntaxFault::Memory => NotRead::Memory,
        _ => NotRead::Refused(Reason::Plain(Refusal::Syntax(fault))),
    }
}

// Why a text whose file isn't typed has no problem.
fn without_typing(text: &[u8], file: File, fault: TypeFault) -> NotRead
    requires is_file { IsFileOf text.now file }
    requires is_fault { typing.IsFault text.now file fault }
    ensures { IsNotRead text.now result }
{
    match fault {
        TypeFault::Memory(_) => NotRead::Memory,
        other => NotRead::Refused(Reason::Untyped(file, other)),
    }
}

// The problem of a file.
fn read_file(alloc: Global, text: &[u8], file: File) -> Result<Problem, NotRead>
    requires { IsFileOf text.now file }
    ensures read { IfOk result (IsProblemOf text.now) }
    ensures why { IfErr result (IsNotRead text.now) }
{
    match elaborate(alloc, text, &file) {
        Ok(problem) => Ok(problem),
        Err(fault) => Err(without_typing(text, file, fault)),
    }
}

// The problem of tokens.
fn read_tokens(alloc: Global, text: &[u8], tokens: &TokenList) -> Result<Problem, NotRead>
    requires { IsTokenized text.now tokens.now }
    ensures read { IfOk result (IsProblemOf text.now) }
    ensures why { IfErr result (IsNotRead text.now) }
{
    match parse(alloc, text, tokens) {
        Ok(file) => read_file(alloc, text, file),
        Err(fault) => Err(without_file(text, tokens, fault)),
    }
}

/// The problem of the text that these bytes are; `Err` where they have none, and where there is no memory for it.
pub fn read_problem(alloc: Global, text: &[u8]) -> Result<Problem, NotRead>
    ensures read { IfOk result (IsProblemOf text.now) }
    ensures why { IfErr result (IsNotRead text.now) }
{
    match tokens(alloc, text) {
        Ok(tokens) => read_tokens(alloc, text, &tokens),
        Err(fault) => Err(without_tokens(text, fault)),
    }
}
