//! A table of runs: `stdin` has blocks, each a line that says what is tried, with which words, and a text. What is told of it is written:
//!
//! - `answers`: the text is answered in each of the three ways of picking, and what is written is checked; the lines that tell the answers and the verdicts,
//!   behind the way's name.
//! - `output`: all that is written, and how the run ends. `end`: the last line of it, and how the run ends.
//! - `devices`: the text is answered over pieces of other sizes, and over a source and a sink of which each call fails in turn; what two such runs write, and what
//!   is otherwise than it should be.
//! - `prefixes`: the first prefix of the text that is neither answered nor refused.
//! - `limits`: texts at the limits.
//! - `refusals`: a table of texts; which are refused otherwise than it says.
#![tactic(auto)]

ghost use Rattle.std.specs.Prelude.{◌<◌, ◌≤◌};

use ae_driver::{Status, run};
use ae_io::{MemSink, MemSource};
use ae_search_options::picks::{Pick, Picks};
use std::alloc::{AllocError, Global};
use std::io;

mod devices;
mod limits;
mod refusals;

const WAYS: [&str; 3] = ["first", "last", "mixed"];

// How many bytes a call gives or takes at most, and the number of the call that fails.
#[derive(Clone, Copy)]
struct Calls {
    piece: usize,
    failing: Option<u64>,
}

const WHOLE: Calls = Calls {
    piece: 4096,
    failing: None,
};

fn failing_calls(alloc: Global, calls: Calls) -> Result<Vec<u64>, AllocError> {
    let mut failing = Vec::new(alloc);
    if let Some(call) = calls.failing {
        failing.push(call)?;
    }
    Ok(failing)
}

// How the run with these words over these calls ends, and what it writes.
fn ended(
    alloc: Global,
    picks: &Picks,
    words: &[String],
    input: &[u8],
    reads: Calls,
    writes: Calls,
) -> Result<(Status, Vec<u8>), AllocError>
    requires reads { 1 ≤ reads.piece }
    requires writes { 1 ≤ writes.piece }
{
    let bytes = Vec::from_slice(alloc, input)?;
    let mut source = MemSource::new(bytes, reads.piece, failing_calls(alloc, reads)?);
    let room = Vec::with_capacity(alloc, 1 << 26)?;
    let mut sink = MemSink::new(room, writes.piece, failing_calls(alloc, writes)?);
    let status = run(alloc, words, picks, &mut source, &mut sink);
    Ok((status, Vec::from_slice(alloc, sink.kept())?))
}

// What a run with these words writes for an input.
fn written(
    alloc: Global,
    picks: &Picks,
    words: &[String],
    input: &[u8],
) -> Result<Vec<u8>, AllocError> {
    let (_status, output) = ended(alloc, picks, words, input, WHOLE, WHOLE)?;
    Ok(output)
}

// How a run ends, as a line.
fn ending(status: Status) -> &'static str {
    match status {
        Status::Done => "done\n",
        Status::Refused => "refused\n",
        Status::ReadFault => "read fault\n",
        Status::WriteFault => "write fault\n",
        Status::Memory => "no memory\n",
        Status::Usage => "usage\n",
    }
}

// A text, a line break where it doesn't end with one, the line that parts, and what is printed for it.
fn with_its_output(alloc: Global, text: &[u8], printed: &[u8]) -> Result<Vec<u8>, AllocError> {
    let mut input = Vec::from_slice(alloc, text)?;
    if !text.ends_with(b"\n") {
        input.push(b'\n')?;
    }
    input.extend_from_slice(b"%%\n")?;
    input.extend_from_slice(printed)?;
    Ok(input)
}

// What a check of what is printed for a text writes.
fn verdicts(
    alloc: Global,
    picks: &Picks,
    text: &[u8],
    printed: &[u8],
) -> Result<Vec<u8>, AllocError> {
    let check = words_of(alloc, "--check")?;
    let input = with_its_output(alloc, text, printed)?;
    written(alloc, picks, check.as_slice(), input.as_slice())
}

// The words of a line.
fn words_of(alloc: Global, line: &str) -> Result<Vec<String>, AllocError> {
    let mut words = Vec::new(alloc);
    for word in line.split(' ') {
        if !word.is_empty() {
            words.push(String::from_str(alloc, word)?)?;
        }
    }
    Ok(words)
}

// Adds the lines of an output that are about goals, or that refuse it, behind the way's name.
fn add_lines(out: &mut Vec<u8>, way: &str, output: &[u8]) -> Result<(), AllocError> {
    for line in output.split(|byte| *byte == b'\n') {
        if line.starts_with(b"goal ") || line.starts_with(b"refused ") {
            out.extend_from_slice(way.as_bytes())?;
            out.push(b' ')?;
            out.extend_from_slice(line)?;
            out.push(b'\n')?;
        }
    }
    Ok(())
}

// Adds what is told of a text that is answered with these words in this way.
fn add_answers(
    alloc: Global,
    out: &mut Vec<u8>,
    picks: &Picks,
    line: &str,
    way: &str,
    text: &str,
) -> Result<(), AllocError> {
    let mut words = words_of(alloc, line)?;
    words.push(String::from_str(alloc, "--pick")?)?;
    words.push(String::from_str(alloc, way)?)?;
    let printed = written(alloc, picks, words.as_slice(), text.as_bytes())?;
    let said = verdicts(alloc, picks, text.as_bytes(), printed.as_slice())?;
    add_lines(out, way, printed.as_slice())?;
    add_lines(out, way, said.as_slice())
}

// The answers to a text and the verdicts on them.
fn answers(alloc: Global, picks: &Picks, line: &str, text: &str) -> Result<Vec<u8>, AllocError> {
    let mut out = Vec::new(alloc);
    for way in WAYS {
        add_answers(alloc, &mut out, picks, line, way, text)?;
    }
    Ok(out)
}

// All that is written for a text, and how the run ends.
fn output(alloc: Global, picks: &Picks, line: &str, text: &str) -> Result<Vec<u8>, AllocError> {
    let words = words_of(alloc, line)?;
    let (status, whole) = ended(
        alloc,
        picks,
        words.as_slice(),
        text.as_bytes(),
        WHOLE,
        WHOLE,
    )?;
    let mut out = whole;
    out.extend_from_slice(ending(status).as_bytes())?;
    Ok(out)
}

// The last line that is written for a text, and how the run ends.
fn end(alloc: Global, picks: &Picks, line: &str, text: &str) -> Result<Vec<u8>, AllocError> {
    let words = words_of(alloc, line)?;
    let (status, whole) = ended(
        alloc,
        picks,
        words.as_slice(),
        text.as_bytes(),
        WHOLE,
        WHOLE,
    )?;
    let mut last: &[u8] = b"";
    for line in whole.as_slice().split(|byte| *byte == b'\n') {
        if !line.is_empty() {
            last = line;
        }
    }
    let mut out = Vec::from_slice(alloc, last)?;
    out.push(b'\n')?;
    out.extend_from_slice(ending(status).as_bytes())?;
    Ok(out)
}

// What is told of a block.
fn told(alloc: Global, picks: &Picks, block: &str) -> Result<Vec<u8>, AllocError> {
    let (line, text) = match block.split_once('\n') {
        Some((line, text)) => (line, text),
        None => (block, ""),
    };
    let (trial, words) = match line.split_once(' ') {
        Some((trial, words)) => (trial, words),
        None => (line, ""),
    };
    if trial == "output" {
        return output(alloc, picks, words, text);
    }
    if trial == "end" {
        return end(alloc, picks, words, text);
    }
    if trial == "devices" {
        return devices::over_devices(alloc, picks, text.as_bytes());
    }
    if trial == "prefixes" {
        return devices::over_prefixes(alloc, picks, text.as_bytes());
    }
    if trial == "limits" {
        return limits::at_limits(alloc, picks);
    }
    if trial == "refusals" {
        return refusals::told_otherwise(alloc, picks, text);
    }
    answers(alloc, picks, words, text)
}

fn main(rt: HostRuntime) -> io::Result<()> {
    let alloc = rt.alloc();
    let last_literal = |n: usize, _turn: usize|
        requires { 1 ≤ n }
        ensures { result < n }
    { n - 1 };
    let last_instance = |n: usize, _turn: usize|
        requires { 1 ≤ n }
        ensures { result < n }
    { n - 1 };
    let mixed_literal = |n: usize, turn: usize|
        requires { 1 ≤ n }
        ensures { result < n }
    { turn % n };
    let mixed_instance = |n: usize, turn: usize|
        requires { 1 ≤ n }
        ensures { result < n }
    { turn % n };
    let decide_first = Pick::keep(Box::new(alloc, |_n: usize, _turn: usize| 0)?);
    let decide_last = Pick::keep(Box::new(alloc, last_literal)?);
    let decide_mixed = Pick::keep(Box::new(alloc, mixed_literal)?);
    let rank_first = Pick::keep(Box::new(alloc, |_n: usize, _turn: usize| 0)?);
    let rank_last = Pick::keep(Box::new(alloc, last_instance)?);
    let rank_mixed = Pick::keep(Box::new(alloc, mixed_instance)?);
    let picks = Picks {
        decide: [decide_first, decide_last, decide_mixed],
        rank: [rank_first, rank_last, rank_mixed],
    };
    let table = io::read_to_string(alloc, rt.reader())?;
    for block in table.split("\n====\n") {
        let told = told(alloc, &picks, block)?;
        let text = String::from_utf8_lossy(alloc, told.as_slice())?;
        print!(rt; "{text}")?;
    }
    Ok(())
}
