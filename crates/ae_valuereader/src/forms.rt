//! Linear forms.
ghost use Rattle.std.specs.Prelude.{◌≡◌, ◌≤◌, ◌<◌, ◌+◌, ◌*◌, ◌-◌, drop, length, IfOk};
ghost use Rattle.ae_codes.specs.Numbers.{no_digit};
ghost use Rattle.ae_readers.specs.Readers.{Reads, ReadsExactly, Ahead, AsksNoMemory, greatest, low_of};
ghost use Rattle.ae_valuereader.specs.Forms.{den_read, const_digits, const_read, body_read, form_read};
ghost use Rattle.ae_valuetext.specs.Lins.{const_ends, linear_form};

use crate::divisors::is_coprime;
use crate::parts::read_rest;
use crate::signs::read_sign;
use ae_num::forms::Lin;
use ae_readers::{Closing, Fault, is_figure, is_wide, read_fixed, read_long, signed};
use std::alloc::Global;

// The greatest number of 127 bits without its last digit, and that digit.
const LIMIT_TENTH: u128 = 17014118346046923173168730371588410572;

const LIMIT_FIGURE: u128 = 7;

// The denominator and the blank behind it.
fn read_denominator(text: &[u8], at: usize) -> Result<(u128, usize), Fault>
    ensures read { Reads text.now result (den_read (drop at text.now)) }
    ensures least { IfOk result (λ v. 1 ≤ v.0) }
    ensures range { IfOk result (λ v. v.0 ≤ greatest) }
    ensures ahead { Ahead text.now at result }
    ensures memory { AsksNoMemory result }
{
    if is_wide(text, at) {
        return Err(Fault::WideNumber(at));
    }
    let ((size, _), next) = read_long(text, at, true, false, Closing::Blank)?;
    Ok((size, next))
}

// The least number that may stand behind a sign, or without one.
fn least(negated: bool) -> u128
    ensures { result ≡ low_of negated }
{
    if negated { 1 } else { 0 }
}

// Whether a byte may close a constant over a denominator: a blank, or the bracket where the two have no common divisor.
fn closes_constant(den: u128, value: u128, byte: u8) -> bool
    requires { 1 ≤ den }
    ensures { result ≡ const_ends den value byte }
{
    (byte == 41 && is_coprime(den, value)) || byte == 32
}

// The digits of a constant.
fn read_constant_digits(
    text: &[u8],
    from: usize,
    den: u128,
    negated: bool,
) -> Result<((u128, u8), usize), Fault>
    requires { 1 ≤ den }
    ensures read { Reads text.now result (const_digits den negated (drop from text.now) no_digit) }
    ensures range { IfOk result (λ v. v.0.0 ≤ greatest) }
    ensures ahead { Ahead text.now from result }
    ensures memory { AsksNoMemory result }
{
    if from >= text.len() || !is_figure(text[from]) {
        return Err(Fault::At(from));
    }
    let mut value = (text[from] - 48) as u128;
    if value < least(negated) {
        return Err(Fault::At(from));
    }
    let mut at = from + 1;
    while at < text.len() {
        let byte = text[at];
        if closes_constant(den, value, byte) {
            return Ok(((value, byte), at + 1));
        }
        if value == 0 || !is_figure(byte) {
            return Err(Fault::At(at));
        }
        let figure = (byte - 48) as u128;
        if value > LIMIT_TENTH || (value == LIMIT_TENTH && figure > LIMIT_FIGURE) {
            return Err(Fault::At(at));
        }
        value = value * 10 + figure;
        at += 1;
    }
    Err(Fault::At(at))
}

// The constant over a denominator, and the byte that closes it.
fn read_constant(text: &[u8], at: usize, den: u128) -> Result<((i128, u8), usize), Fault>
    requires { 1 ≤ den }
    ensures read { Reads text.now result (const_read den (drop at text.now)) }
    ensures ahead { Ahead text.now at result }
    ensures memory { AsksNoMemory result }
{
    let (negated, digits) = read_sign(text, at)?;
    let ((size, close), next) = read_constant_digits(text, digits, den, negated)?;
    Ok(((signed(negated, size), close), next))
}

/// What stands behind `(lin ` up to the bracket that closes the form.
pub fn read_body(alloc: Global, text: &[u8], at: usize) -> Result<(Lin, usize), Fault>
    ensures read { Reads text.now result (body_read (drop at text.now)) }
    ensures ahead { Ahead text.now at result }
{
    let (den, behind) = read_denominator(text, at)?;
    let ((constant, close), end) = read_constant(text, behind, den)?;
    let (parts, next) = read_rest(alloc, text, end, den, constant, close == 32)?;
    let form = Lin {
        den: signed(false, den),
        parts,
        constant,
    };
    Ok((form, next))
}

/// The linear form that begins at a place, up to its bracket.
pub fn read_form(alloc: Global, text: &[u8], at: usize) -> Result<(Lin, usize), Fault>
    ensures read { Reads text.now result (linear_form.read (drop at text.now)) }
    ensures exact { ReadsExactly linear_form text.now at result }
    ensures ahead { Ahead text.now at result }
{
    read_opened(alloc, text, at)
}

fn read_opened(alloc: Global, text: &[u8], at: usize) -> Result<(Lin, usize), Fault>
    ensures read { Reads text.now result (form_read (drop at text.now)) }
    ensures ahead { Ahead text.now at result }
{
    let (_, behind) = read_fixed(text, at, b"(lin ")?;
    let (form, next) = read_body(alloc, text, behind)?;
    Ok((form, next))
}
