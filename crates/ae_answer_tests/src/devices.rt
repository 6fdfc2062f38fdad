//! Runs over other pieces, over calls that fail, and over the beginnings of a text.

ghost use Rattle.std.specs.Prelude.{◌≤◌};

use crate::{Calls, WHOLE, ended, ending};
use ae_driver::Status;
use ae_search_options::picks::Picks;
use std::alloc::{AllocError, Global};

// More calls than a run of the table makes.
const CALLS: u64 = 1000;

// A device whose calls give or take so few bytes, of which this one fails.
fn failing_at(call: u64) -> Calls
    ensures { 1 ≤ result.piece }
{
    Calls {
        piece: 64,
        failing: Some(call),
    }
}

// The first call of the source whose failure is told otherwise than by a read fault, with nothing written.
fn other_read(
    alloc: Global,
    picks: &Picks,
    text: &[u8],
    whole: &[u8],
) -> Result<Option<u64>, AllocError> {
    for call in 0..CALLS {
        let (status, output) = ended(alloc, picks, &[], text, failing_at(call), WHOLE)?;
        if status == Status::Done {
            return Ok(if output.as_slice() == whole {
                None
            } else {
                Some(call)
            });
        }
        if status != Status::ReadFault || !output.is_empty() {
            return Ok(Some(call));
        }
    }
    Ok(Some(CALLS))
}

// The first call of the sink whose failure is told otherwise than by a write fault, with what the calls before it wrote.
fn other_write(
    alloc: Global,
    picks: &Picks,
    text: &[u8],
    whole: &[u8],
) -> Result<Option<u64>, AllocError> {
    let mut before = 0;
    for call in 0..CALLS {
        let (status, output) = ended(alloc, picks, &[], text, WHOLE, failing_at(call))?;
        if status == Status::Done {
            return Ok(if output.as_slice() == whole {
                None
            } else {
                Some(call)
            });
        }
        let longer = call == 0 || before < output.len();
        if status != Status::WriteFault || !longer || !whole.starts_with(output.as_slice()) {
            return Ok(Some(call));
        }
        before = output.len();
    }
    Ok(Some(CALLS))
}

// Whether the output is the same over pieces of this size.
fn is_same_over(
    alloc: Global,
    picks: &Picks,
    text: &[u8],
    whole: &[u8],
    piece: usize,
) -> Result<bool, AllocError>
    requires { 1 ≤ piece }
{
    let calls = Calls {
        piece,
        failing: None,
    };
    let (status, output) = ended(alloc, picks, &[], text, calls, calls)?;
    Ok(status == Status::Done && output.as_slice() == whole)
}

// What is written where the second of eight bytes each is refused, and what where the first read fails, and how these runs end.
fn cut_off(alloc: Global, picks: &Picks, text: &[u8]) -> Result<Vec<u8>, AllocError> {
    let second = Calls {
        piece: 8,
        failing: Some(1),
    };
    let first = Calls {
        piece: 4096,
        failing: Some(0),
    };
    let (status, output) = ended(alloc, picks, &[], text, WHOLE, second)?;
    let mut out = output;
    out.push(b'\n')?;
    out.extend_from_slice(ending(status).as_bytes())?;
    let (status, output) = ended(alloc, picks, &[], text, first, WHOLE)?;
    out.extend_from_slice(output.as_slice())?;
    out.extend_from_slice(ending(status).as_bytes())?;
    Ok(out)
}

/// What a text is cut off to, and what is otherwise than it should be where it is answered over other pieces, and over calls that fail.
pub fn over_devices(alloc: Global, picks: &Picks, text: &[u8]) -> Result<Vec<u8>, AllocError> {
    let (_status, output) = ended(alloc, picks, &[], text, WHOLE, WHOLE)?;
    let whole = output.as_slice();
    let mut out = cut_off(alloc, picks, text)?;
    if !is_same_over(alloc, picks, text, whole, 1)? {
        out.extend_from_slice(b"pieces of one byte give another output\n")?;
    }
    if !is_same_over(alloc, picks, text, whole, 7)? {
        out.extend_from_slice(b"pieces of seven bytes give another output\n")?;
    }
    if other_read(alloc, picks, text, whole)?.is_some() {
        out.extend_from_slice(b"a read fails otherwise\n")?;
    }
    if other_write(alloc, picks, text, whole)?.is_some() {
        out.extend_from_slice(b"a write fails otherwise\n")?;
    }
    out.extend_from_slice(b"devices tried\n")?;
    Ok(out)
}

/// The first prefix of a text that is neither answered nor refused.
pub fn over_prefixes(alloc: Global, picks: &Picks, text: &[u8]) -> Result<Vec<u8>, AllocError> {
    for length in 0..text.len() {
        let prefix = &text[..length];
        let (status, _output) = ended(alloc, picks, &[], prefix, WHOLE, WHOLE)?;
        if status != Status::Done && status != Status::Refused {
            return Vec::from_slice(alloc, b"a prefix ends otherwise\n");
        }
    }
    Vec::from_slice(alloc, b"prefixes tried\n")
}
