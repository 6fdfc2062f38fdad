//! The numerals of terms.
ghost use Rattle.std.specs.Prelude.{◌≡◌, ◌<◌, ◌≤◌, ◌+◌, ℕ, pos, length, drop, true, IfOk};
ghost use Rattle.ae_codes.specs.Codes.{wide_below, wide_after, wide_plain, wide_negative, too_wide};
ghost use Rattle.ae_readers.specs.Readers.{Reads, Ahead, close_of, sign_of, low_of};
ghost use Rattle.ae_termreader.specs.Terms.{numeral_read, signed_num, num_read};

use ae_core::terms::Term;
use ae_readers::{Closing, Fault, byte_at, is_figure, is_wide, read_below, read_long, signed};

fn wide_below(text: &[u8], at: usize) -> bool
    ensures { result ≡ wide_below (drop at text.now) }
{
    match byte_at(text, at) {
        None => false,
        Some(byte) => byte == b'/' && is_wide(text, at + 1),
    }
}

fn wide_after(text: &[u8], from: usize) -> bool
    ensures { result ≡ wide_after (drop from text.now) }
{
    let mut at = from;
    while at < text.len() && is_figure(text[at]) {
        at += 1;
    }
    wide_below(text, at)
}

fn wide_plain(text: &[u8], at: usize) -> bool
    ensures { result ≡ wide_plain (drop at text.now) }
{
    match byte_at(text, at) {
        None => false,
        Some(byte) => {
            if is_wide(text, at) {
                return true;
            }
            if byte == b'0' {
                return wide_below(text, at + 1);
            }
            is_figure(byte) && wide_after(text, at + 1)
        }
    }
}

fn wide_negative(text: &[u8], at: usize) -> bool
    ensures { result ≡ wide_negative (drop at text.now) }
{
    match byte_at(text, at) {
        None => false,
        Some(byte) => (49 <= byte && byte <= 57) && wide_plain(text, at),
    }
}

fn is_too_wide(text: &[u8], at: usize) -> bool
    ensures { result ≡ too_wide (drop at text.now) }
{
    match byte_at(text, at) {
        None => false,
        Some(byte) => wide_plain(text, at) || (byte == b'-' && wide_negative(text, at + 1)),
    }
}

fn read_num(
    text: &[u8],
    at: usize,
    negated: bool,
    closing: Closing,
) -> Result<((Term, u8), usize), Fault>
    ensures read { Reads text.now result (num_read (sign_of negated) (low_of negated) (close_of closing) (drop at text.now)) }
    ensures ahead { Ahead text.now at result }
{
    let ((size, close), next) = read_long(text, at, negated, true, closing)?;
    let top = signed(negated, size);
    if close == b'/' {
        let ((below, last), end) = read_below(text, next, size, closing)?;
        let bottom = signed(false, below);
        return Ok((
            (
                Term::Num {
                    top,
                    bottom,
                    real: true,
                },
                last,
            ),
            end,
        ));
    }
    Ok((
        (
            Term::Num {
                top,
                bottom: 1,
                real: false,
            },
            close,
        ),
        next,
    ))
}

fn read_signed(text: &[u8], at: usize, closing: Closing) -> Result<((Term, u8), usize), Fault>
    ensures read { Reads text.now result (signed_num (close_of closing) (drop at text.now)) }
    ensures ahead { Ahead text.now at result }
{
    match byte_at(text, at) {
        None => Err(Fault::At(at)),
        Some(byte) => {
            if byte == b'-' {
                read_num(text, at + 1, true, closing)
            } else {
                read_num(text, at, false, closing)
            }
        }
    }
}

/// The numeral that begins at a place, and the byte that closes it.
pub fn read_numeral(text: &[u8], at: usize, closing: Closing) -> Result<((Term, u8), usize), Fault>
    ensures read { Reads text.now result (numeral_read (close_of closing) (drop at text.now)) }
    ensures ahead { Ahead text.now at result }
{
    if is_too_wide(text, at) {
        return Err(Fault::WideNumber(at));
    }
    read_signed(text, at, closing)
}
