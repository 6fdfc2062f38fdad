//! Numbers and the byte that closes them.
ghost use Rattle.std.specs.Prelude.{◌≡◌, drop};
ghost use Rattle.ae_codes.specs.Codes.{wide_digits};
ghost use Rattle.ae_codes.specs.Closers.{sizes};
ghost use Rattle.ae_codes.specs.Numbers.{number, read_digits, no_digit};
ghost use Rattle.ae_readers.specs.Readers.{Reads, ReadsExactly, Ahead, AsksNoMemory, close_of, closes, size_read, greatest_size};

use crate::bytes::is_figure;
use crate::closing::Closing;
use crate::fault::Fault;

/// The greatest number of 127 bits.
pub const LIMIT: u128 = 170141183460469231731687303715884105727;
/// Without its last digit, and that digit.
pub const LIMIT_TENTH: u128 = 17014118346046923173168730371588410572;

pub const LIMIT_FIGURE: u128 = 7;
/// The same of the greatest number of 64 bits.
const SIZE_TENTH: usize = 1844674407370955161;

const SIZE_FIGURE: usize = 5;

/// Whether a number beyond 127 bits stands at a place.
pub fn is_wide(text: &[u8], from: usize) -> bool
    ensures { result ≡ wide_digits (drop from text.now) }
{
    if from >= text.len() || text[from] < 49 || 57 < text[from] {
        return false;
    }
    let mut sum: u128 = 0;
    let mut at = from;
    while at < text.len() && is_figure(text[at]) {
        let figure = (text[at] - 48) as u128;
        if sum > LIMIT_TENTH || (sum == LIMIT_TENTH && figure > LIMIT_FIGURE) {
            return true;
        }
        sum = sum * 10 + figure;
        at += 1;
    }
    false
}

// The digits of a number of 64 bits, and the byte that closes it.
fn read_digits(text: &[u8], from: usize, closing: Closing) -> Result<((usize, u8), usize), Fault>
    ensures read { Reads text.now result (read_digits 0 greatest_size (closes closing) (drop from text.now) no_digit) }
    ensures ahead { Ahead text.now from result }
    ensures memory { AsksNoMemory result }
{
    if from >= text.len() || !is_figure(text[from]) {
        return Err(Fault::At(from));
    }
    let mut value = (text[from] - 48) as usize;
    let mut at = from + 1;
    while at < text.len() {
        let byte = text[at];
        if closing.closes(byte) {
            return Ok(((value, byte), at + 1));
        }
        if value == 0 || !is_figure(byte) {
            return Err(Fault::At(at));
        }
        let figure = (byte - 48) as usize;
        if value > SIZE_TENTH || (value == SIZE_TENTH && figure > SIZE_FIGURE) {
            return Err(Fault::At(at));
        }
        value = value * 10 + figure;
        at += 1;
    }
    Err(Fault::At(at))
}

/// The number below 2^64 that begins at a place, and the byte that closes it. One beyond 127 bits is told at its first digit, a smaller one beyond 64 bits at the
/// first digit with which none goes on.
pub fn read_size(text: &[u8], at: usize, closing: Closing) -> Result<((usize, u8), usize), Fault>
    ensures read { Reads text.now result ((number (sizes (close_of closing))).read (drop at text.now)) }
    ensures exact { ReadsExactly (number (sizes (close_of closing))) text.now at result }
    ensures ahead { Ahead text.now at result }
    ensures memory { AsksNoMemory result }
{
    read_narrow(text, at, closing)
}

fn read_narrow(text: &[u8], at: usize, closing: Closing) -> Result<((usize, u8), usize), Fault>
    ensures read { Reads text.now result (size_read (closes closing) (drop at text.now)) }
    ensures ahead { Ahead text.now at result }
    ensures memory { AsksNoMemory result }
{
    if is_wide(text, at) {
        return Err(Fault::WideNumber(at));
    }
    let (found, next) = read_digits(text, at, closing)?;
    Ok((found, next))
}
