//! Marks of the rewriting state, and what is restored after a refusal.
//!
//! A thousand marks are made, with an equation of two constants assumed after each. They are restored, the last one first, and some of them completed; then
//! the one in the middle is restored again, and completed. The state is compared with one built anew of the same equations: `pairs that differ` is how many
//! pairs of names are the same in one of them alone.
//!
//! Then three equations are assumed that take more lines than the journal may have, and three of which a value leaves the limits. After each of these refusals
//! a mark from before is restored, and completed.
#![tactic(auto)]

mod answers;
mod equations;
mod marks;
mod telling;

use crate::equations::Kind;
use crate::marks::{tell_marks, tell_refusals};
use ae_io::{StdSink, write_all};
use std::alloc::{AllocError, Global};
use std::io;
use std::process::ExitCode;

fn tell_all(alloc: Global, out: &mut Vec<u8>) -> Result<(), AllocError> {
    tell_marks(alloc, out)?;
    tell_refusals(alloc, Kind::Plain, 1, out)?;
    tell_refusals(alloc, Kind::Large, 1_000, out)
}

fn main(rt: HostRuntime) -> ExitCode {
    let alloc = rt.alloc();
    let mut out = Vec::new(alloc);
    if tell_all(alloc, &mut out).is_err() {
        return ExitCode::from(2);
    }
    let mut sink = StdSink::new(io::writer(&rt));
    match write_all(&mut sink, out.as_slice()) {
        Ok(()) => ExitCode::from(0),
        Err(_) => ExitCode::from(1),
    }
}
