//! What may stand below the stroke of a fraction.
ghost use Rattle.std.specs.Prelude.{◌≡◌, ◌≤◌, ◌<◌, ◌+◌, ◌*◌, ◌-◌, ◌/◌, ◌&&◌, true, false, length, drop, IfOk, IfSome, IfNone};
ghost use Rattle.std.specs.Int.{IsGcd};
ghost use Rattle.ae_codes.specs.Fractions.{lowest};
ghost use Rattle.ae_codes.specs.Numbers.{no_digit};
ghost use Rattle.ae_readers.specs.Denominators.{can_reach, can_live, may_go, below_digits, below_at};
ghost use Rattle.ae_readers.specs.Readers.{Reads, ReadsExactly, Ahead, AsksNoMemory, close_of, closes, greatest};

use crate::bytes::is_figure;
use crate::closing::Closing;
use crate::fault::Fault;
use crate::numbers::{LIMIT, LIMIT_TENTH};

// The greatest common divisor, by Euclid's steps.
fn gcd(left: u128, right: u128) -> u128
    ensures { IsGcd left right result }
{
    let mut a = left;
    let mut b = right;
    while b != 0 {
        let rest = a % b;
        a = b;
        b = rest;
    }
    a
}

// Whether `top / bottom` is in lowest terms, with a number from 1 to 2^127 - 1 below.
fn is_lowest(top: u128, bottom: u128) -> bool
    ensures { result ≡ lowest top bottom }
{
    if bottom < 1 || LIMIT < bottom {
        return false;
    }
    gcd(top, bottom) == 1
}

// Whether a number, or it with fewer than `more` further digits, may stand below `top`.
#[cycle(reaches)]
fn reaches(top: u128, bottom: u128, more: usize) -> bool
    ensures { result ≡ can_reach top more bottom }
{
    if more == 0 {
        return false;
    }
    if is_lowest(top, bottom) {
        return true;
    }
    if LIMIT_TENTH < bottom {
        return false;
    }
    let mut digit: u128 = 10;
    while digit > 0 {
        digit -= 1;
        if reaches(top, bottom * 10 + digit, more - 1) {
            return true;
        }
    }
    false
}

// Whether digits go on to a number that may stand below `top`.
fn lives(top: u128, bottom: u128) -> bool
    ensures { result ≡ can_live top bottom }
{
    if is_lowest(top, bottom) {
        return true;
    }
    if bottom == 0 {
        return false;
    }
    if top == 0 {
        return false;
    }
    reaches(top, bottom, 40)
}

/// The number below the stroke that begins at a place, with no divisor above 1 in common with `top`, and the byte that closes it.
pub fn read_below(
    text: &[u8],
    from: usize,
    top: u128,
    closing: Closing,
) -> Result<((u128, u8), usize), Fault>
    ensures read { Reads text.now result (below_digits top (close_of closing) (drop from text.now) no_digit) }
    ensures exact { ReadsExactly (below_at top (close_of closing)) text.now from result }
    ensures ahead { Ahead text.now from result }
    ensures memory { AsksNoMemory result }
    ensures range { IfOk result (λ v. v.0.0 ≤ greatest) }
{
    read_to_end(text, from, top, closing)
}

fn read_to_end(
    text: &[u8],
    from: usize,
    top: u128,
    closing: Closing,
) -> Result<((u128, u8), usize), Fault>
    ensures read { Reads text.now result (below_digits top (close_of closing) (drop from text.now) no_digit) }
    ensures ahead { Ahead text.now from result }
    ensures memory { AsksNoMemory result }
    ensures range { IfOk result (λ v. v.0.0 ≤ greatest) }
{
    if from >= text.len() || !is_figure(text[from]) {
        return Err(Fault::At(from));
    }
    let mut value = (text[from] - 48) as u128;
    if !lives(top, value) {
        return Err(Fault::At(from));
    }
    let mut at = from + 1;
    while at < text.len() {
        let byte = text[at];
        if ends_below(top, value, closing, byte) {
            return Ok(((value, byte), at + 1));
        }
        match longer(top, value, byte) {
            Some(number) => value = number,
            None => return Err(Fault::At(at)),
        }
        at += 1;
    }
    Err(Fault::At(at))
}

fn ends_below(top: u128, value: u128, closing: Closing, byte: u8) -> bool
    ensures { result ≡ closes closing byte && lowest top value }
{
    closing.closes(byte) && is_lowest(top, value)
}

// The number with one further digit, where that goes on to one that may stand below `top`.
fn longer(top: u128, value: u128, byte: u8) -> Option<u128>
    requires { value ≤ greatest }
    ensures is { IfSome result (λ n. n ≡ value * 10 + (byte - 48)) }
    ensures goes { IfSome result (λ n. may_go top value byte ≡ true) }
    ensures within { IfSome result (λ n. n ≤ greatest) }
    ensures none { IfNone result (may_go top value byte ≡ false) }
{
    if value == 0 {
        return None;
    }
    if !is_figure(byte) {
        return None;
    }
    if LIMIT_TENTH < value {
        return None;
    }
    let number = value * 10 + (byte - 48) as u128;
    if lives(top, number) {
        Some(number)
    } else {
        None
    }
}
