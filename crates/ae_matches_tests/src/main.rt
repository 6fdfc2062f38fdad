//! Triggers and matches of texts. `stdin` has texts with a line of `%%` between two of them, and `stdout` what is said of each.
//!
//! Of an axiom that is instantiated, and of a goal that is a quantified formula, it says the triggers, a line each, in which `#0` is
//! the innermost variable. Each other goal has a store of its own: the terms of the closed axioms before it are known, those of the
//! first one from generation 0, of the next one from generation 1 and so on, and those of the goal from generation 0. For each axiom
//! that is instantiated it says the matches below each of these generations, a line each: the axiom, its trigger's number, the bound,
//! the sorts, the terms, and whether `take` says that it is new. First each name is the same as itself alone; then the equations of
//! the axioms and of what denies the goal hold.
#![tactic(auto)]

mod closed;
mod facts;
mod reading;
mod rules;
mod telling;
mod trials;

use crate::trials::tell_text;
use ae_io::{StdSink, StdSource, read_all, write_all};
use ae_prooftext::put;
use ae_separator::parting;
use std::alloc::{AllocError, Global};
use std::io;
use std::process::ExitCode;

const INPUT_LIMIT: usize = 1_048_576;

/// Puts what is said of each text of the input.
fn tell_input(alloc: Global, input: &[u8], out: &mut Vec<u8>) -> Result<(), AllocError> {
    let mut rest = input;
    for _ in 0..input.len() {
        match parting(rest) {
            None => return tell_text(alloc, rest, out),
            Some(parted) => {
                tell_text(alloc, &rest[..parted.before], out)?;
                put(out, b"%%\n")?;
                rest = &rest[parted.after..];
            }
        }
    }
    Ok(())
}

fn main(rt: HostRuntime) -> ExitCode {
    let alloc = rt.alloc();
    let mut source = StdSource::new(rt.reader());
    let Ok(input) = read_all(alloc, &mut source, INPUT_LIMIT) else {
        return ExitCode::from(1);
    };
    let mut out = Vec::new(alloc);
    if tell_input(alloc, input.as_slice(), &mut out).is_err() {
        return ExitCode::from(2);
    }
    let mut sink = StdSink::new(io::writer(&rt));
    match write_all(&mut sink, out.as_slice()) {
        Ok(()) => ExitCode::from(0),
        Err(_) => ExitCode::from(1),
    }
}
