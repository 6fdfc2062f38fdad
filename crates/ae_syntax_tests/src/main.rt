//! The grammar by example: `stdin` has texts, with a line `==` between them; the last one is empty. `stdout` has under each text how it
//! is grouped, or where it is refused. A piece of a text between backquotes stands there as often as the number before it says.
#![tactic(auto)]

mod grouped;
mod output;
mod types;

use ae_syntax::decls::{Decl, DeclKind, File};
use ae_syntax::parse;
use grouped::put_expr;
use output::Output;
use std::alloc::{AllocError, Global};
use std::io;
use types::put_type;

/// Puts a piece as often as the number before it says.
fn put_repeated(text: &mut String, part: &str) -> Result<(), AllocError> {
    let Some((number, piece)) = part.split_once(' ') else {
        return Ok(());
    };
    let Ok(count) = number.parse::<u16>() else {
        return Ok(());
    };
    for _ in 0..count {
        text.push_str(piece)?;
    }
    Ok(())
}

/// The text that is written so.
fn text_of(alloc: Global, written: &str) -> Result<String, AllocError> {
    let mut text = String::new(alloc);
    for (at, part) in written.split('`').enumerate() {
        if at % 2 == 0 {
            text.push_str(part)?;
        } else {
            put_repeated(&mut text, part)?;
        }
    }
    Ok(text)
}

/// Puts how a goal's formula or a symbol's type is grouped, where it is alone in a file that isn't long.
fn put_file(text: &[u8], file: &File, out: &mut Output) {
    if text.len() > 1000 {
        return out.put(b"accepted");
    }
    match file.decls.as_slice() {
        [
            Decl {
                kind: DeclKind::Goal { body, .. },
                ..
            },
        ] => put_expr(text, body, out),
        [
            Decl {
                kind: DeclKind::Logic { result, .. },
                ..
            },
        ] => match &result.sort {
            Some(sort) => put_type(text, sort, out),
            None => out.put(b"prop"),
        },
        _ => out.put(b"accepted"),
    }
}

fn file_answer(alloc: Global, text: &[u8], file: &File) -> Result<String, AllocError> {
    let mut out = Output::new(alloc);
    put_file(text, file, &mut out);
    out.text(alloc)
}

fn answer(alloc: Global, text: &[u8]) -> Result<String, AllocError> {
    let Ok(tokens) = ae_lex::tokens(alloc, text) else {
        return String::from_str(alloc, "no tokens");
    };
    match parse(alloc, text, &tokens) {
        Ok(file) => file_answer(alloc, text, &file),
        Err(fault) => format!(in alloc; "{fault}"),
    }
}

fn main(rt: HostRuntime) -> io::Result<()> {
    let table = io::read_to_string(rt.alloc(), rt.reader())?;
    for written in table.split("\n==\n") {
        let text = text_of(rt.alloc(), written)?;
        let answer = answer(rt.alloc(), text.as_bytes())?;
        println!(rt; "{written}\n  {answer}\n==")?;
    }
    Ok(())
}
