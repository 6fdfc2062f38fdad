//! A table of texts: each text stands in a line, and under it a mark at the place where it is refused and why, or that it is accepted.

use crate::{WHOLE, ended, words_of};
use ae_driver::Status;
use ae_search_options::picks::Picks;
use std::alloc::{AllocError, Global};

// What a run says of a text that ends so and writes this: the line of its refusal, or that the text is accepted.
fn said(alloc: Global, status: Status, written: &[u8]) -> Result<String, AllocError> {
    if status == Status::Done {
        String::from_str(alloc, "accepted\n")
    } else {
        String::from_utf8_lossy(alloc, written)
    }
}

// What is told of a text.
fn told(alloc: Global, picks: &Picks, text: &str) -> Result<String, AllocError> {
    let words = words_of(alloc, "--steps-bound 20")?;
    let (status, written) = ended(
        alloc,
        picks,
        words.as_slice(),
        text.as_bytes(),
        WHOLE,
        WHOLE,
    )?;
    said(alloc, status, written.as_slice())
}

// What is to be told of a text that has this line under it.
fn wanted(alloc: Global, below: &str) -> Result<String, AllocError> {
    match below.split_once('^') {
        Some((before, why)) => {
            let column = before.len().saturating_add(1);
            format!(in alloc; "refused 1:{column}{why}\n")
        }
        None => format!(in alloc; "{below}\n"),
    }
}

// Adds what is told of a text, where that isn't what the line under it says.
fn add_otherwise(
    alloc: Global,
    out: &mut Vec<u8>,
    picks: &Picks,
    text: &str,
    below: &str,
) -> Result<(), AllocError> {
    let told = told(alloc, picks, text)?;
    let wanted = wanted(alloc, below)?;
    if told != wanted {
        out.extend_from_slice(text.as_bytes())?;
        out.push(b'\n')?;
        out.extend_from_slice(told.as_bytes())?;
    }
    Ok(())
}

/// What is told of texts otherwise than their table says, and then how many texts it has.
pub fn told_otherwise(alloc: Global, picks: &Picks, table: &str) -> Result<Vec<u8>, AllocError> {
    let mut out = Vec::new(alloc);
    let mut text = "";
    let mut count: u64 = 0;
    for line in table.lines() {
        if line.is_empty() || line.starts_with('#') {
            continue;
        }
        if text.is_empty() {
            text = line;
            continue;
        }
        add_otherwise(alloc, &mut out, picks, text, line)?;
        count = count.saturating_add(1);
        text = "";
    }
    let last = format!(in alloc; "{count} texts\n")?;
    out.extend_from_slice(last.as_bytes())?;
    Ok(out)
}
