//! Numbers of 64 bits between two bounds.
ghost use Rattle.std.specs.Prelude.{◌≡◌, ◌≤◌, ◌<◌, ◌+◌, ◌*◌, ◌-◌, ◌&&◌, true, false, drop, IfOk, IfSome, IfNone};
ghost use Rattle.ae_codes.specs.Numbers.{lies, no_digit};
ghost use Rattle.ae_readers.specs.Readers.{Reads, Ahead, AsksNoMemory};
ghost use Rattle.ae_valuereader.specs.Spans.{spans, goes, goes_by, may_close, span_digits, span_read};

use ae_readers::{Fault, is_figure, is_wide};

/// Which numbers may stand at a place, and which bytes may close them.
#[derive(Clone, Copy, PartialEq, Eq)]
pub struct Span {
    /// The least number.
    pub low: usize,
    /// The greatest number.
    pub high: usize,
    /// A byte that may close each of them, where `may_end` says so.
    pub last: u8,
    pub may_end: bool,
    /// A blank may close a number up to this one.
    pub greatest: usize,
}

// Whether a number stands between two bounds.
fn is_between(low: usize, high: usize, value: usize) -> bool
    ensures { result ≡ lies low high value }
{
    low <= value && value <= high
}

// Whether some number between the bounds is the value, or it with fewer than 40 further digits.
fn reaches(low: usize, high: usize, value: usize) -> bool
    ensures { result ≡ spans 40 low high value }
{
    let mut least = low;
    let mut most = high;
    let mut more: usize = 40;
    while more > 0 {
        if is_between(least, most, value) {
            return true;
        }
        least /= 10;
        most /= 10;
        more -= 1;
    }
    false
}

// Whether digits go on to a number of the span.
fn goes_on(span: Span, value: usize) -> bool
    ensures { result ≡ goes span value }
{
    is_between(span.low, span.high, value) || (value > 0 && reaches(span.low, span.high, value))
}

fn closes(span: Span, value: usize, byte: u8) -> bool
    ensures { result ≡ may_close span value byte && lies span.low span.high value }
{
    ((byte == span.last && span.may_end) || (byte == 32 && value <= span.greatest))
        && is_between(span.low, span.high, value)
}

// The number with one further digit, where that goes on to one of the span.
fn longer(span: Span, value: usize, byte: u8) -> Option<usize>
    ensures is { IfSome result (λ n. n ≡ value * 10 + (byte - 48)) }
    ensures goes { IfSome result (λ n. goes_by span value byte ≡ true) }
    ensures none { IfNone result (goes_by span value byte ≡ false) }
{
    if value == 0 {
        return None;
    }
    if !is_figure(byte) {
        return None;
    }
    let number = (value as u128) * 10 + (byte - 48) as u128;
    if number > span.high as u128 {
        return None;
    }
    let number = number as usize;
    if goes_on(span, number) {
        Some(number)
    } else {
        None
    }
}

fn read_digits(text: &[u8], from: usize, span: Span) -> Result<((usize, u8), usize), Fault>
    ensures read { Reads text.now result (span_digits span (drop from text.now) no_digit) }
    ensures closed { IfOk result (λ v. may_close span v.0.0 v.0.1 ≡ true) }
    ensures ahead { Ahead text.now from result }
    ensures memory { AsksNoMemory result }
{
    if from >= text.len() || !is_figure(text[from]) {
        return Err(Fault::At(from));
    }
    let mut value = (text[from] - 48) as usize;
    if !goes_on(span, value) {
        return Err(Fault::At(from));
    }
    let mut at = from + 1;
    while at < text.len() {
        let byte = text[at];
        if closes(span, value, byte) {
            return Ok(((value, byte), at + 1));
        }
        match longer(span, value, byte) {
            Some(number) => value = number,
            None => return Err(Fault::At(at)),
        }
        at += 1;
    }
    Err(Fault::At(at))
}

/// The number of a span that begins at a place, and the byte that closes it. A number beyond 127 bits is told at its first digit, any other at the first digit with
/// which none of the span goes on.
pub fn read_within(text: &[u8], at: usize, span: Span) -> Result<((usize, u8), usize), Fault>
    ensures read { Reads text.now result (span_read span (drop at text.now)) }
    ensures closed { IfOk result (λ v. may_close span v.0.0 v.0.1 ≡ true) }
    ensures ahead { Ahead text.now at result }
    ensures memory { AsksNoMemory result }
{
    if is_wide(text, at) {
        return Err(Fault::WideNumber(at));
    }
    let (found, next) = read_digits(text, at, span)?;
    Ok((found, next))
}
