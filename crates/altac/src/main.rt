//! The program: it reads standard input and writes the answers to standard output.
#![tactic(auto)]

ghost use Rattle.std.specs.Prelude.{◌≡◌, ◌<◌, ◌≤◌};

use ae_driver::{Status, run};
use ae_io::{StdSink, StdSource};
use ae_search_options::picks::{Pick, Picks};
use std::alloc::AllocError;
use std::io::ErrorKind;
use std::process::ExitCode;
use std::{env, io};

fn main(rt: HostRuntime) -> ExitCode {
    let words = match words_after_name(&rt) {
        Ok(words) => words,
        Err(error) if error.kind() == ErrorKind::OutOfMemory => return ExitCode::from(NO_MEMORY),
        Err(_) => return ExitCode::from(NO_WORDS),
    };
    match answered(&rt, words.as_slice()) {
        Ok(status) => ExitCode::from(exit_number(status)),
        Err(_) => ExitCode::from(NO_MEMORY),
    }
}

// The run with these words, which picks in one of three ways: the first, the last, or one by the turn. `Err` where there is no
// memory for these ways; then nothing is read or written.
fn answered(rt: &HostRuntime, words: &[String]) -> Result<Status, AllocError> {
    let alloc = rt.alloc();
    let last_literal = |n: usize, _turn: usize|
        requires { 1 ≤ n }
        ensures { result < n }
    { n - 1 };
    let last_instance = |n: usize, _turn: usize|
        requires { 1 ≤ n }
        ensures { result < n }
    { n - 1 };
    let mixed_literal = |n: usize, turn: usize|
        requires { 1 ≤ n }
        ensures { result < n }
    { turn % n };
    let mixed_instance = |n: usize, turn: usize|
        requires { 1 ≤ n }
        ensures { result < n }
    { turn % n };
    let decide_first = Pick::keep(Box::new(alloc, |_n: usize, _turn: usize| 0)?);
    let decide_last = Pick::keep(Box::new(alloc, last_literal)?);
    let decide_mixed = Pick::keep(Box::new(alloc, mixed_literal)?);
    let rank_first = Pick::keep(Box::new(alloc, |_n: usize, _turn: usize| 0)?);
    let rank_last = Pick::keep(Box::new(alloc, last_instance)?);
    let rank_mixed = Pick::keep(Box::new(alloc, mixed_instance)?);
    let picks = Picks {
        decide: [decide_first, decide_last, decide_mixed],
        rank: [rank_first, rank_last, rank_mixed],
    };
    let mut source = StdSource::new(rt.reader());
    let mut sink = StdSink::new(io::writer(rt));
    Ok(run(alloc, words, &picks, &mut source, &mut sink))
}

// The words of the command line after the program's name. Where one isn't text, the empty word
// stands for them all: it is no option either.
fn words_after_name(rt: &HostRuntime) -> io::Result<Vec<String>> {
    match env::args(rt) {
        Ok(mut words) => {
            words.next();
            Ok(words.collect::<Vec<String>>(rt.alloc())?)
        }
        Err(error) if error.kind() == ErrorKind::InvalidData => {
            Ok(vec![in rt.alloc(); String::new(rt.alloc())]?)
        }
        Err(error) => Err(error),
    }
}

const NO_MEMORY: u8 = 5;

const NO_WORDS: u8 = 70;

// The exit status of each way in which a run ends.
fn exit_number(status: Status) -> u8
    ensures done { status ≡ Status.Done → result ≡ 0 }
    ensures refused { status ≡ Status.Refused → result ≡ 2 }
    ensures read_fault { status ≡ Status.ReadFault → result ≡ 3 }
    ensures write_fault { status ≡ Status.WriteFault → result ≡ 4 }
    ensures memory { status ≡ Status.Memory → result ≡ 5 }
    ensures usage { status ≡ Status.Usage → result ≡ 64 }
{
    match status {
        Status::Done => 0,
        Status::Refused => 2,
        Status::ReadFault => 3,
        Status::WriteFault => 4,
        Status::Memory => NO_MEMORY,
        Status::Usage => 64,
    }
}
