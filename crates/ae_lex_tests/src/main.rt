//! The lexis by example: `stdin` has a text in each line, in which `%0A` is the byte of that number. `stdout` has under each text its first fault, and its tokens or the
//! fault that stands for them.
#![tactic(auto)]

use ae_lex::{first_fault, tokens};
use percent_encoding::percent_decode;
use std::io;

fn main(rt: HostRuntime) -> io::Result<()> {
    let table = io::read_to_string(rt.alloc(), rt.reader())?;
    for line in table.lines() {
        let mut text = Vec::new(rt.alloc());
        percent_decode(line.as_bytes()).append_to(&mut text)?;
        let first = first_fault(text.as_slice());
        println!(rt; "{line}\n  {first:?}")?;
        match tokens(rt.alloc(), text.as_slice()) {
            Ok(found) => {
                for at in 0..found.len() {
                    if let Some(token) = found.get(at) {
                        println!(rt; "  {token:?}")?;
                    }
                }
            }
            Err(fault) => println!(rt; "  {fault:?}")?,
        }
    }
    Ok(())
}
