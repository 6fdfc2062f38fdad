//! The factors of a linear form with their names.
ghost use Rattle.std.specs.Prelude.{◌≡◌, ◌≤◌, drop, length, true, IfOk, unsigned_abs};
ghost use Rattle.ae_readers.specs.Readers.{Reads, Ahead, AsksNoMemory, greatest};
ghost use Rattle.ae_valuereader.specs.Forms.{factor_digits, factor_read, key_read, key_span, part_read, rest_read};
ghost use Rattle.ae_valuereader.specs.Signs.{NotBehind};

use crate::divisors::{gcd, is_coprime};
use crate::signs::read_sign;
use crate::spans::{Span, read_within};
use ae_base::lists::List;
use ae_num::forms::Part;
use ae_readers::{Closing, Fault, read_below, read_long, signed};
use std::alloc::Global;

/// The greatest number of 64 bits.
const TOP: usize = 18446744073709551615;

// The digits of a factor before a name from `low` on, where `divisor` divides all that stands before.
fn read_factor_digits(
    text: &[u8],
    at: usize,
    low: usize,
    divisor: u128,
) -> Result<((u128, u8), usize), Fault>
    ensures read { Reads text.now result (factor_digits low divisor (drop at text.now)) }
    ensures range { IfOk result (λ v. v.0.0 ≤ greatest) }
    ensures ahead { Ahead text.now at result }
    ensures memory { AsksNoMemory result }
{
    if low < TOP {
        read_long(text, at, true, false, Closing::Blank)
    } else {
        read_below(text, at, divisor, Closing::Blank)
    }
}

#[tactic(auto, unfolding(crate::specs::Forms::factor_read))]
fn read_factor(
    text: &[u8],
    at: usize,
    low: usize,
    divisor: u128,
) -> Result<((i128, u8), usize), Fault>
    ensures read { Reads text.now result (factor_read low divisor (drop at text.now)) }
    ensures range { IfOk result (λ v. unsigned_abs v.0.0 ≤ greatest) }
    ensures ahead { Ahead text.now at result }
    ensures memory { AsksNoMemory result }
{
    let (negated, digits) = read_sign(text, at)?;
    let ((size, close), next) = read_factor_digits(text, digits, low, divisor)?;
    Ok(((signed(negated, size), close), next))
}

// Which names may stand behind a factor: from `low` on, and the last of all where no divisor is left.
fn keys(low: usize, whole: bool) -> Span
    ensures { result ≡ key_span low whole }
{
    Span {
        low,
        high: if whole { TOP } else { TOP - 1 },
        last: 41,
        may_end: whole,
        greatest: TOP - 1,
    }
}

// A whole number without its sign.
fn size_of(number: i128) -> u128
    ensures { result ≡ unsigned_abs number }
{
    number.unsigned_abs()
}

// The name behind a factor, and the byte that closes it.
fn read_key(
    text: &[u8],
    at: usize,
    low: usize,
    divisor: u128,
    factor: i128,
) -> Result<((usize, u8), usize), Fault>
    requires { 1 ≤ divisor }
    ensures read { Reads text.now result (key_read low divisor factor (drop at text.now)) }
    ensures below { IfOk result (λ v. v.0.1 ≡ 32 → v.0.0 ≤ 18446744073709551614) }
    ensures ahead { Ahead text.now at result }
    ensures memory { AsksNoMemory result }
{
    let whole = is_coprime(divisor, size_of(factor));
    read_within(text, at, keys(low, whole))
}

fn part_of(key: usize, factor: i128) -> Part
    ensures { result ≡ record { key = key; factor = factor } }
{
    Part { key, factor }
}

// A factor and its name, and the byte that closes it.
fn read_part(
    text: &[u8],
    at: usize,
    low: usize,
    divisor: u128,
) -> Result<((Part, u8), usize), Fault>
    requires { 1 ≤ divisor }
    ensures read { Reads text.now result (part_read low divisor (drop at text.now)) }
    ensures range { IfOk result (λ v. unsigned_abs v.0.0.factor ≤ greatest) }
    ensures below { IfOk result (λ v. v.0.1 ≡ 32 → v.0.0.key ≤ 18446744073709551614) }
    ensures ahead { Ahead text.now at result }
    ensures memory { AsksNoMemory result }
{
    let ((factor, _), behind) = read_factor(text, at, low, divisor)?;
    let ((key, close), next) = read_key(text, behind, low, divisor, factor)?;
    Ok(((part_of(key, factor), close), next))
}

// Factors and their names behind a blank, up to the bracket that closes the form.
fn read_parts(
    alloc: Global,
    text: &[u8],
    from: usize,
    den: u128,
    size: u128,
) -> Result<(List<Part>, usize), Fault>
    requires { 1 ≤ den }
    ensures read { Reads text.now result (rest_read true den size (drop from text.now)) }
    ensures ahead { Ahead text.now from result }
{
    let mut parts = List::new(alloc);
    let mut at = from;
    let mut low = 0;
    let mut divisor = gcd(den, size);
    'parts: loop {
        let ((part, close), next) = match read_part(text, at, low, divisor) {
            Ok(found) => found,
            Err(fault) => return Err(fault),
        };
        if let Err(_) = parts.push(part) {
            return Err(Fault::Memory);
        }
        at = next;
        if close != 32 {
            return Ok((parts, at));
        }
        divisor = gcd(divisor, size_of(part.factor));
        low = part.key + 1;
    }
}

/// What stands behind the constant of a form over `den`: nothing, or, where `more` says so, factors with their names.
pub fn read_rest(
    alloc: Global,
    text: &[u8],
    at: usize,
    den: u128,
    constant: i128,
    more: bool,
) -> Result<(List<Part>, usize), Fault>
    requires { 1 ≤ den }
    ensures read { Reads text.now result (rest_read more den (unsigned_abs constant) (drop at text.now)) }
    ensures ahead { at ≤ length text.now → NotBehind text.now at result }
{
    if more {
        read_parts(alloc, text, at, den, size_of(constant))
    } else {
        Ok((List::new(alloc), at))
    }
}
