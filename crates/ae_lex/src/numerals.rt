//! Numerals and their values.

ghost use Rattle.std.specs.Prelude.{ℕ, ◌≡◌, ◌<◌, ◌≤◌, ◌+◌, ◌-◌, ◌*◌, ◌^◌, length};
ghost use Rattle.std.specs.Option.{ForSome};
ghost use Rattle.std.specs.Int.{IsGcd};
ghost use Rattle.ae_lex.specs.Lexis.{IsLowest};
ghost use Rattle.ae_lex.specs.Inner.Pieces.{IsValue, HasDigits, IsWholeKind, IsDecimalKind};

use crate::kinds::TokenKind;
use crate::scans::{is_digit, next};

/// The numbers of the profile are below it.
const LIMIT: u128 = 0x8000_0000_0000_0000_0000_0000_0000_0000;

/// Digits of a numeral: their value, if it is at most 2^127 - 1, and where they end.
#[derive(Clone, Copy)]
pub struct DigitRun {
    pub value: Option<u128>,
    pub to: usize,
}

// Ten times the number and a digit.
fn with_digit(number: Option<u128>, digit: u8) -> Option<u128>
    requires { digit < 10 }
    ensures { (v : ℕ) → IsValue number v → IsValue result (v * 10 + digit) }
{
    let larger = number?.checked_mul(10)?.checked_add(digit as u128)?;
    if larger < LIMIT { Some(larger) } else { None }
}

/// The digits from a place on, after digits of this value.
pub fn digits(text: &[u8], from: usize, before: Option<u128>) -> DigitRun
    requires { from ≤ length text.now }
    ensures { HasDigits text.now from result.to before result.value }
{
    let mut value = before;
    let mut at = from;
    while let Some(byte) = next(text, at) {
        if !is_digit(byte) {
            return DigitRun { value, to: at };
        }
        value = with_digit(value, byte - b'0');
        at += 1;
    }
    DigitRun { value, to: at }
}

/// Ten to a power.
pub fn power_of_ten(places: usize) -> Option<u128>
    ensures is { IsValue result (10 ^ places) }
    ensures some { ForSome result (λ m. (0 < m) × (m < 2 ^ 127)) }
{
    let mut power = Some(1);
    for _place in 0..places {
        power = with_digit(power, 0);
    }
    power
}

// The greatest common divisor, by Euclid's steps.
fn gcd(left: u128, right: u128) -> u128
    ensures { IsGcd left right result }
{
    let mut a = left;
    let mut b = right;
    while b != 0 {
        let rest = a % b;
        a = b;
        b = rest;
    }
    a
}

// The fraction `top / bottom` in lowest terms.
fn in_lowest_terms(top: u128, bottom: u128) -> (i128, i128)
    requires top { top < 2 ^ 127 }
    requires bottom { bottom < 2 ^ 127 }
    requires some { 0 < bottom }
    ensures { IsLowest result.0 result.1 top bottom }
{
    let common = gcd(top, bottom);
    ((top / common) as i128, (bottom / common) as i128)
}

/// A whole numeral of this value, or none where it is too wide.
pub fn whole_kind(number: Option<u128>) -> Option<TokenKind>
    requires { ForSome number (λ n. n < 2 ^ 127) }
    ensures { (v : ℕ) → IsValue number v → IsWholeKind result v }
{
    let number = number?;
    Some(TokenKind::Whole(number as i128))
}

/// A decimal numeral of these digits over this power of ten, or none where it is too wide.
pub fn decimal_kind(number: Option<u128>, power: Option<u128>) -> Option<TokenKind>
    requires number { ForSome number (λ n. n < 2 ^ 127) }
    requires power { ForSome power (λ m. (0 < m) × (m < 2 ^ 127)) }
    ensures { (n m : ℕ) → IsValue number n → IsValue power m → IsDecimalKind result n m }
{
    let number = number?;
    let power = power?;
    let (top, bottom) = in_lowest_terms(number, power);
    Some(TokenKind::Decimal { top, bottom })
}
