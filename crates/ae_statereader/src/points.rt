//! The lines of points: a name and a fraction in lowest terms.
ghost use Rattle.std.specs.Prelude.{◌≡◌, ◌<◌, ◌≤◌, ◌+◌, ◌&&◌, ◌||◌, length, drop};
ghost use Rattle.ae_codes.specs.Codes.{too_wide, wide_after, wide_below, wide_negative, wide_plain};
ghost use Rattle.ae_readers.specs.Readers.{Reads, Ahead};
ghost use Rattle.ae_statereader.specs.Items.{fraction_read, point_read, signed_read, top_read};

use ae_journal::systems::PointAt;
use ae_readers::{
    Closing, Fault, byte_at, is_figure, is_wide, read_below, read_fixed, read_long, read_size,
    signed,
};

fn is_wide_below(text: &[u8], at: usize) -> bool
    ensures { result ≡ wide_below (drop at text.now) }
{
    match byte_at(text, at) {
        None => false,
        Some(byte) => byte == b'/' && is_wide(text, at + 1),
    }
}

fn is_wide_after(text: &[u8], from: usize) -> bool
    ensures { result ≡ wide_after (drop from text.now) }
{
    let mut at = from;
    while at < text.len() && is_figure(text[at]) {
        at += 1;
    }
    is_wide_below(text, at)
}

fn is_wide_plain(text: &[u8], at: usize) -> bool
    ensures { result ≡ wide_plain (drop at text.now) }
{
    match byte_at(text, at) {
        None => false,
        Some(byte) => {
            if is_wide(text, at) {
                return true;
            }
            if byte == b'0' {
                return is_wide_below(text, at + 1);
            }
            is_figure(byte) && is_wide_after(text, at + 1)
        }
    }
}

fn is_wide_negative(text: &[u8], at: usize) -> bool
    ensures { result ≡ wide_negative (drop at text.now) }
{
    match byte_at(text, at) {
        None => false,
        Some(byte) => (49 <= byte && byte <= 57) && is_wide_plain(text, at),
    }
}

// Whether a numeral begins at a place of which a part is outside the limits.
fn is_too_wide(text: &[u8], at: usize) -> bool
    ensures { result ≡ too_wide (drop at text.now) }
{
    match byte_at(text, at) {
        None => false,
        Some(byte) => {
            is_wide_plain(text, at) || (byte == b'-' && is_wide_negative(text, at + 1))
        }
    }
}

// A fraction behind its sign.
fn read_unsigned(text: &[u8], at: usize, negated: bool) -> Result<((i128, i128), usize), Fault>
    ensures read { Reads text.now result (top_read negated (drop at text.now)) }
    ensures ahead { Ahead text.now at result }
{
    let ((size, close), behind) = read_long(text, at, negated, true, Closing::Line)?;
    if close != b'/' {
        return Err(Fault::At(behind - 1));
    }
    let ((below, _), next) = read_below(text, behind, size, Closing::Line)?;
    let top = signed(negated, size);
    let bottom = signed(false, below);
    Ok(((top, bottom), next))
}

fn read_by_sign(text: &[u8], at: usize) -> Result<((i128, i128), usize), Fault>
    ensures read { Reads text.now result (signed_read (drop at text.now)) }
    ensures ahead { Ahead text.now at result }
{
    match byte_at(text, at) {
        None => Err(Fault::At(at)),
        Some(byte) => {
            if byte == b'-' {
                return read_unsigned(text, at + 1, true);
            }
            read_unsigned(text, at, false)
        }
    }
}

// The fraction that begins at a place, up to the end of its line. One with a number outside the limits is told at its first byte.
fn read_fraction(text: &[u8], at: usize) -> Result<((i128, i128), usize), Fault>
    ensures read { Reads text.now result (fraction_read (drop at text.now)) }
    ensures ahead { Ahead text.now at result }
{
    if is_too_wide(text, at) {
        return Err(Fault::WideNumber(at));
    }
    read_by_sign(text, at)
}

/// The line of a point: `point `, its name and its fraction.
pub fn read_point(text: &[u8], at: usize) -> Result<(PointAt, usize), Fault>
    ensures read { Reads text.now result (point_read (drop at text.now)) }
    ensures ahead { Ahead text.now at result }
{
    let (_, behind) = read_fixed(text, at, b"point ")?;
    let ((name, _), open) = read_size(text, behind, Closing::Blank)?;
    let ((top, bottom), next) = read_fraction(text, open)?;
    Ok((PointAt { name, top, bottom }, next))
}
