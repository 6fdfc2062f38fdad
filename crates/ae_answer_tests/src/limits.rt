//! Texts at the limits.

use crate::{WHOLE, ended, ending, verdicts};
use ae_driver::{INPUT_LIMIT, Status};
use ae_search_options::picks::Picks;
use std::alloc::{AllocError, Global};

// Adds the first line of what is written for a text, and how the run ends.
fn add_first_line(
    alloc: Global,
    out: &mut Vec<u8>,
    picks: &Picks,
    text: &[u8],
) -> Result<(), AllocError> {
    let (status, written) = ended(alloc, picks, &[], text, WHOLE, WHOLE)?;
    for byte in written.as_slice() {
        if *byte == b'\n' {
            break;
        }
        out.push(*byte)?;
    }
    out.push(b'\n')?;
    out.extend_from_slice(ending(status).as_bytes())
}

// A text whose goal is denied so many times.
fn denied(alloc: Global, count: usize) -> Result<Vec<u8>, AllocError> {
    let mut text = Vec::from_slice(alloc, b"goal g : ")?;
    for _ in 0..count {
        text.extend_from_slice(b"not ")?;
    }
    text.extend_from_slice(b"true")?;
    Ok(text)
}

// A text of so many goals, and the lines by which they are accepted.
fn goals(alloc: Global, count: usize) -> Result<(Vec<u8>, Vec<u8>), AllocError> {
    let mut text = Vec::from_slice(alloc, b"type t\nlogic a : t\n")?;
    let mut lines = Vec::new(alloc);
    for _ in 0..count {
        text.extend_from_slice(b"goal g : a = a\n")?;
        lines.extend_from_slice(b"goal g accepted\n")?;
    }
    Ok((text, lines))
}

// Whether each of so many goals of one text is accepted.
fn are_accepted(alloc: Global, picks: &Picks, count: usize) -> Result<bool, AllocError> {
    let (text, lines) = goals(alloc, count)?;
    let (status, printed) = ended(alloc, picks, &[], text.as_slice(), WHOLE, WHOLE)?;
    let said = verdicts(alloc, picks, text.as_slice(), printed.as_slice())?;
    Ok(status == Status::Done && said.as_slice() == lines.as_slice())
}

/// What is told of texts at the limits: one blank more than a text may have, as many as it may have; one denial more than it may have; bytes that no token has;
/// ten thousand goals.
pub fn at_limits(alloc: Global, picks: &Picks) -> Result<Vec<u8>, AllocError> {
    let mut out = Vec::new(alloc);
    let long = vec![in alloc; b' '; INPUT_LIMIT + 1]?;
    add_first_line(alloc, &mut out, picks, long.as_slice())?;
    let longest = vec![in alloc; b' '; INPUT_LIMIT]?;
    add_first_line(alloc, &mut out, picks, longest.as_slice())?;
    add_first_line(alloc, &mut out, picks, denied(alloc, 1001)?.as_slice())?;
    let bytes = vec![in alloc; b'\xff'; 300]?;
    add_first_line(alloc, &mut out, picks, bytes.as_slice())?;
    if are_accepted(alloc, picks, 10000)? {
        out.extend_from_slice(b"ten thousand goals accepted\n")?;
    }
    Ok(out)
}
