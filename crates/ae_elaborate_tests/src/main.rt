//! Elaboration by example: `stdin` has texts, with a line `==` between them; the last one is empty. `stdout` has behind each text and a
//! line `--` what it elaborates to. A problem is written as its axioms and goals, one a line: its name, how many type variables
//! it has, and its formula as in proofs, where `#0` is the innermost bound variable and a type variable of an axiom is nothing. A
//! fault is written as the words that tell it and its place, and a sort with `_` for what is undetermined and its type by number.
#![tactic(auto)]

mod faults;
mod items;

ghost use Rattle.std.specs.List.{AllByRecursion};
ghost use Rattle.ae_elab.specs.Names.{IsName, names_in_file};
ghost use Rattle.ae_lex.specs.Lexis.{IsTokenized};

use ae_elab::names_stand;
use ae_elaborate::elaborate;
use ae_lex::token_list::TokenList;
use ae_lex::tokens;
use ae_prooftext::put;
use ae_syntax::decls::File;
use ae_syntax::parse;
use faults::put_fault;
use items::put_problem;
use std::alloc::{AllocError, Global};
use std::io;

/// Puts what a file elaborates to.
fn put_file(alloc: Global, text: &[u8], file: &File, out: &mut Vec<u8>) -> Result<(), AllocError>
    requires { AllByRecursion (IsName text.now) (names_in_file file.now) }
{
    match elaborate(alloc, text, file) {
        Ok(problem) => put_problem(out, &problem),
        Err(fault) => put_fault(out, &fault),
    }
}

/// Puts what the file of a text's tokens elaborates to.
fn put_tokens(
    alloc: Global,
    text: &[u8],
    tokens: &TokenList,
    out: &mut Vec<u8>,
) -> Result<(), AllocError>
    requires { IsTokenized text.now tokens.now }
{
    names_stand();
    match parse(alloc, text, tokens) {
        Ok(file) => put_file(alloc, text, &file, out),
        Err(_fault) => put(out, b"no file\n"),
    }
}

/// What a text elaborates to.
fn answer(alloc: Global, text: &[u8]) -> Result<String, AllocError> {
    let mut out = Vec::new(alloc);
    match tokens(alloc, text) {
        Ok(tokens) => put_tokens(alloc, text, &tokens, &mut out)?,
        Err(_fault) => put(&mut out, b"no tokens\n")?,
    }
    String::from_utf8_lossy(alloc, out.as_slice())
}

fn main(rt: HostRuntime) -> io::Result<()> {
    let table = io::read_to_string(rt.alloc(), rt.reader())?;
    for text in table.split("\n==\n") {
        let answer = answer(rt.alloc(), text.as_bytes())?;
        println!(rt; "{text}\n--\n{answer}==")?;
    }
    Ok(())
}
