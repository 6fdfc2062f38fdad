//! Whole numbers with a sign.
ghost use Rattle.std.specs.Prelude.{◌≡◌, ◌≤◌, ◌<◌, ◌+◌, drop, false, length, pos, IfOk};
ghost use Rattle.ae_codes.specs.Integers.{negate};
ghost use Rattle.ae_codes.specs.Numbers.{read_digits, no_digit};
ghost use Rattle.ae_readers.specs.Readers.{Reads, ReadsExactly, Ahead, AsksNoMemory, close_of, or_stroke, integer_at, integer_read, positive_read, negative_read, greatest, sign_of, low_of, long_at};

use crate::bytes::{byte_at, is_figure};
use crate::closing::Closing;
use crate::fault::Fault;
use crate::numbers::{LIMIT_FIGURE, LIMIT_TENTH, is_wide};

/// The digits of a number within 127 bits that begins at a place, not of 0 where a sign stands before them, and the byte that closes it: one of two, or `/` where
/// `stroke` says so.
pub fn read_long(
    text: &[u8],
    from: usize,
    signed: bool,
    stroke: bool,
    closing: Closing,
) -> Result<((u128, u8), usize), Fault>
    ensures read { Reads text.now result (read_digits (low_of signed) greatest (or_stroke stroke (close_of closing)) (drop from text.now) no_digit) }
    ensures exact { ReadsExactly (long_at signed stroke (close_of closing)) text.now from result }
    ensures range { IfOk result (λ v. v.0.0 ≤ greatest) }
    ensures ahead { Ahead text.now from result }
    ensures memory { AsksNoMemory result }
{
    read_to_end(text, from, signed, stroke, closing)
}

fn read_to_end(
    text: &[u8],
    from: usize,
    signed: bool,
    stroke: bool,
    closing: Closing,
) -> Result<((u128, u8), usize), Fault>
    ensures read { Reads text.now result (read_digits (low_of signed) greatest (or_stroke stroke (close_of closing)) (drop from text.now) no_digit) }
    ensures range { IfOk result (λ v. v.0.0 ≤ greatest) }
    ensures ahead { Ahead text.now from result }
    ensures memory { AsksNoMemory result }
{
    if from >= text.len() || !is_figure(text[from]) {
        return Err(Fault::At(from));
    }
    let mut value = (text[from] - 48) as u128;
    if value < least(signed) {
        return Err(Fault::At(from));
    }
    let mut at = from + 1;
    while at < text.len() {
        let byte = text[at];
        if ends_long(stroke, closing, byte) {
            return Ok(((value, byte), at + 1));
        }
        if value == 0 || !is_figure(byte) {
            return Err(Fault::At(at));
        }
        let figure = (byte - 48) as u128;
        if value > LIMIT_TENTH || (value == LIMIT_TENTH && figure > LIMIT_FIGURE) {
            return Err(Fault::At(at));
        }
        value = value * 10 + figure;
        at += 1;
    }
    Err(Fault::At(at))
}

// The least number that may stand behind a sign, or without one.
fn least(signed: bool) -> u128
    ensures { result ≡ low_of signed }
{
    if signed { 1 } else { 0 }
}

fn ends_long(stroke: bool, closing: Closing, byte: u8) -> bool
    ensures { result ≡ or_stroke stroke (close_of closing) byte }
{
    (stroke && byte == b'/') || closing.closes(byte)
}

/// The whole number within 127 bits that begins at a place, and the byte that closes it. One outside the limits is told at its first byte, the sign.
pub fn read_integer(text: &[u8], at: usize, closing: Closing) -> Result<((i128, u8), usize), Fault>
    ensures read { Reads text.now result ((integer_at (close_of closing)).read (drop at text.now)) }
    ensures exact { ReadsExactly (integer_at (close_of closing)) text.now at result }
    ensures ahead { Ahead text.now at result }
    ensures memory { AsksNoMemory result }
{
    read_signed(text, at, closing)
}

fn read_signed(text: &[u8], at: usize, closing: Closing) -> Result<((i128, u8), usize), Fault>
    ensures read { Reads text.now result (integer_read (or_stroke false (close_of closing)) (drop at text.now)) }
    ensures ahead { Ahead text.now at result }
    ensures memory { AsksNoMemory result }
{
    match byte_at(text, at) {
        None => Err(Fault::At(at)),
        Some(byte) => {
            if byte == b'-' {
                read_negative(text, at, closing)
            } else {
                read_positive(text, at, closing)
            }
        }
    }
}

fn read_positive(text: &[u8], at: usize, closing: Closing) -> Result<((i128, u8), usize), Fault>
    ensures read { Reads text.now result (positive_read (or_stroke false (close_of closing)) (drop at text.now)) }
    ensures ahead { Ahead text.now at result }
    ensures memory { AsksNoMemory result }
{
    if is_wide(text, at) {
        return Err(Fault::WideNumber(at));
    }
    let ((size, close), next) = read_to_end(text, at, false, false, closing)?;
    Ok(((positive(size), close), next))
}

fn read_negative(text: &[u8], at: usize, closing: Closing) -> Result<((i128, u8), usize), Fault>
    requires { at < length text.now }
    ensures read { Reads text.now result (negative_read (or_stroke false (close_of closing)) (drop at text.now) (drop (at + 1) text.now)) }
    ensures ahead { Ahead text.now at result }
    ensures memory { AsksNoMemory result }
{
    if is_wide(text, at + 1) {
        return Err(Fault::WideNumber(at));
    }
    let ((size, close), next) = read_to_end(text, at + 1, true, false, closing)?;
    Ok(((negative(size), close), next))
}

/// A size with its sign.
pub fn signed(negated: bool, size: u128) -> i128
    requires { size ≤ greatest }
    ensures { result ≡ sign_of negated size }
{
    if negated {
        negative(size)
    } else {
        positive(size)
    }
}

// A size as an integer.
fn positive(size: u128) -> i128
    requires { size ≤ greatest }
    ensures { result ≡ pos size }
{
    size as i128
}

// The integer below 0 of a size, or 0.
fn negative(size: u128) -> i128
    requires { size ≤ greatest }
    ensures { result ≡ negate size }
{
    -(size as i128)
}
