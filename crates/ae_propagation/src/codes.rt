//! Literals as numbers, and how they stand to values.
ghost use Rattle.std.specs.Prelude.{◌≡◌, ◌≢◌, ◌<◌, length, not, slice_index_or, Some, None, MatchBool, MatchOption};
ghost use Rattle.std.specs.List.{Contains};
ghost use Rattle.ae_propagation.specs.declared.codes.Code.{Code};
ghost use Rattle.ae_explain.specs.Inner.Index.{value_at};
ghost use Rattle.ae_propagation.specs.Inner.Coding.{IsTrueCode, IsNotFalseCode, SaysCodes};

use crate::settle::ClauseState;

/// A literal by its formula's number.
#[derive(Clone, Copy, Debug, PartialEq, Eq)]
pub(crate) struct Code {
    pub(crate) number: usize,
    pub(crate) positive: bool,
}

/// The number of a code's formula.
pub(crate) fn number_at(codes: &[Code], place: usize) -> usize
    requires within { place < length codes.now }
    ensures { (w : Code) → result ≡ (slice_index_or codes.now place w).number }
{
    codes[place].number
}

/// Whether the formula of a number is true, where that is known.
fn value_of(values: &[Option<bool>], number: usize) -> Option<bool>
    ensures { result ≡ value_at values.now number }
{
    if number < values.len() {
        values[number]
    } else {
        None
    }
}

/// Whether a literal is true.
fn is_true(values: &[Option<bool>], code: &Code) -> bool
    ensures { MatchBool result (value_at values.now code.now.number ≡ Some code.now.positive) (value_at values.now code.now.number ≢ Some code.now.positive) }
{
    match value_of(values, code.number) {
        Some(value) => value == code.positive,
        None => false,
    }
}

/// Whether a literal is false.
fn is_false(values: &[Option<bool>], code: &Code) -> bool
    ensures { MatchBool result (value_at values.now code.now.number ≡ Some (not code.now.positive)) (value_at values.now code.now.number ≢ Some (not code.now.positive)) }
{
    match value_of(values, code.number) {
        Some(value) => value != code.positive,
        None => false,
    }
}

/// Whether two literals are the same.
fn same_code(left: &Code, right: &Code) -> bool
    ensures { MatchBool result (left.now ≡ right.now) (left.now ≢ right.now) }
{
    left.number == right.number && left.positive == right.positive
}

/// The place of a true literal.
fn true_one(values: &[Option<bool>], codes: &[Code]) -> Option<usize>
    ensures { MatchOption result ((k : Code) → Contains codes.now k → value_at values.now k.number ≢ Some k.positive) (λ p. IsTrueCode values.now codes.now p) }
{
    for i in 0..codes.len() {
        if is_true(values, &codes[i]) {
            return Some(i);
        }
    }
    None
}

/// The place of a literal that isn't false.
fn open_one(values: &[Option<bool>], codes: &[Code]) -> Option<usize>
    ensures { MatchOption result ((k : Code) → Contains codes.now k → value_at values.now k.number ≡ Some (not k.positive)) (λ p. IsNotFalseCode values.now codes.now p) }
{
    for i in 0..codes.len() {
        if !is_false(values, &codes[i]) {
            return Some(i);
        }
    }
    None
}

/// The place of a literal that isn't false and isn't this one.
fn other_open(values: &[Option<bool>], codes: &[Code], own: &Code) -> Option<usize>
    ensures { MatchOption result ((k : Code) → Contains codes.now k → k ≢ own.now → value_at values.now k.number ≡ Some (not k.positive))
        (λ p. IsNotFalseCode values.now codes.now p × ((w : Code) → slice_index_or codes.now p w ≢ own.now)) }
{
    for i in 0..codes.len() {
        if !same_code(&codes[i], own) && !is_false(values, &codes[i]) {
            return Some(i);
        }
    }
    None
}

/// How a clause stands to values, by its codes.
pub(crate) fn state_of(values: &[Option<bool>], codes: &[Code]) -> ClauseState
    ensures { SaysCodes values.now codes.now result }
{
    if let Some(_k) = true_one(values, codes) {
        return ClauseState::True;
    }
    let Some(p) = open_one(values, codes) else {
        return ClauseState::False;
    };
    match other_open(values, codes, &codes[p]) {
        Some(_q) => ClauseState::Open,
        None => ClauseState::Unit(p),
    }
}
