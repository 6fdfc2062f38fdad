//! Values.
ghost use Rattle.std.specs.Prelude.{◌≡◌, ◌≤◌, ◌<◌, ◌+◌, length, drop};
ghost use Rattle.ae_readers.specs.Readers.{Reads, ReadsExactly, Ahead, close_of, row_read, behind_read};
ghost use Rattle.ae_valuereader.specs.Values.{field_rows, name_read, compound_read, bracket_read, value_turn};
ghost use Rattle.ae_valuetext.specs.Values.{value};

use crate::forms::read_body;
use ae_base::lists::List;
use ae_num::forms::Value;
use ae_readers::{Closing, Fault, byte_at, read_closing, read_fixed, read_size};
use std::alloc::Global;

/// The value that begins at a place, and the byte that closes it.
#[cycle(read_value)]
pub fn read_value(
    alloc: Global,
    text: &[u8],
    at: usize,
    closing: Closing,
) -> Result<((Value, u8), usize), Fault>
    ensures read { Reads text.now result ((value (close_of closing)).read (drop at text.now)) }
    ensures exact { ReadsExactly (value (close_of closing)) text.now at result }
    ensures ahead { Ahead text.now at result }
{
    read_by_byte(alloc, text, at, closing)
}

#[cycle(read_value)]
fn read_by_byte(
    alloc: Global,
    text: &[u8],
    at: usize,
    closing: Closing,
) -> Result<((Value, u8), usize), Fault>
    ensures read { Reads text.now result (value_turn (close_of closing) (drop at text.now)) }
    ensures ahead { Ahead text.now at result }
{
    match byte_at(text, at) {
        None => Err(Fault::At(at)),
        Some(byte) => {
            if byte == b'(' {
                return read_bracket(alloc, text, at + 1, closing);
            }
            read_leaf(text, at, closing)
        }
    }
}

fn read_leaf(text: &[u8], at: usize, closing: Closing) -> Result<((Value, u8), usize), Fault>
    ensures read { Reads text.now result (name_read (close_of closing) (drop at text.now)) }
    ensures ahead { Ahead text.now at result }
{
    let ((name, close), next) = read_size(text, at, closing)?;
    Ok(((Value::Leaf(name), close), next))
}

#[cycle(read_value)]
fn read_bracket(
    alloc: Global,
    text: &[u8],
    at: usize,
    closing: Closing,
) -> Result<((Value, u8), usize), Fault>
    ensures read { Reads text.now result (bracket_read (close_of closing) (drop at text.now)) }
    ensures ahead { Ahead text.now at result }
{
    let (value, end) = read_compound(alloc, text, at)?;
    let (close, next) = read_closing(text, end, closing)?;
    Ok(((value, close), next))
}

#[cycle(read_value)]
fn read_compound(alloc: Global, text: &[u8], at: usize) -> Result<(Value, usize), Fault>
    ensures read { Reads text.now result (compound_read (drop at text.now)) }
    ensures ahead { Ahead text.now at result }
{
    match byte_at(text, at) {
        None => Err(Fault::At(at)),
        Some(byte) => {
            if byte == b':' {
                let (values, next) = read_fields(alloc, text, at + 1)?;
                return Ok((Value::Fields(values), next));
            }
            let (_, behind) = read_fixed(text, at, b"lin ")?;
            let (form, next) = read_body(alloc, text, behind)?;
            Ok((Value::Number(form), next))
        }
    }
}

// Values, a blank before each, up to the bracket that closes them.
#[cycle(read_value)]
fn read_fields(alloc: Global, text: &[u8], at: usize) -> Result<(List<Value>, usize), Fault>
    ensures read { Reads text.now result (behind_read 41 field_rows (drop at text.now)) }
    ensures ahead { Ahead text.now at result }
{
    match byte_at(text, at) {
        None => Err(Fault::At(at)),
        Some(byte) => {
            if byte == b')' {
                return Ok((List::new(alloc), at + 1));
            }
            let (_, behind) = read_fixed(text, at, b" ")?;
            let (values, next) = read_row(alloc, text, behind)?;
            Ok((values, next))
        }
    }
}

#[cycle(read_value)]
fn read_row(alloc: Global, text: &[u8], from: usize) -> Result<(List<Value>, usize), Fault>
    ensures read { Reads text.now result (row_read field_rows (drop from text.now)) }
    ensures ahead { Ahead text.now from result }
{
    let mut values = List::new(alloc);
    let mut at = from;
    'values: loop {
        let ((value, close), next) = match read_value(alloc, text, at, Closing::Round) {
            Ok(found) => found,
            Err(fault) => return Err(fault),
        };
        if let Err(_) = values.push(value) {
            return Err(Fault::Memory);
        }
        at = next;
        if close != 32 {
            return Ok((values, at));
        }
    }
}
