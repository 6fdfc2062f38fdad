//! Rules of derived lines, and endings.
ghost use Rattle.std.specs.Prelude.{◌≡◌, ◌<◌, ◌≤◌, ◌+◌, length, drop};
ghost use Rattle.ae_prooftext.specs.Rules.{ending_code};
ghost use Rattle.ae_choices.specs.Choices.{picked};
ghost use Rattle.ae_linereader.specs.Rules.{eq_all, eq_arms, eq_field_arms, eq_listed_arms, le_all, le_arms, lt_all, lt_arms, ending_all, ending_arms, ending_late_arms};
ghost use Rattle.ae_readers.specs.Readers.{Reads, Ahead, most};

use crate::lists::{read_number_and_more, read_numbers, read_sum};
use ae_base::lists::Boxed;
use ae_choices::behind_word;
use ae_core::proofs::{Ending, EqLine};
use ae_core::terms::Term;
use ae_readers::{Closing, Fault, farther, place, read_size};
use std::alloc::Global;

// Where no rule of an equation goes on.
fn eq_wrong(text: &[u8], at: usize) -> usize
    ensures behind { drop result text.now ≡ drop (most 0 eq_all (drop at text.now)) (drop at text.now) }
    ensures within { result ≤ length text.now }
{
    let far = farther(text, at, b"hyp ", 0);
    let far = farther(text, at, b"refl\n", far);
    let far = farther(text, at, b"sym ", far);
    let far = farther(text, at, b"trans ", far);
    let far = farther(text, at, b"cong", far);
    let far = farther(text, at, b"ac\n", far);
    let far = farther(text, at, b"lin ", far);
    let far = farther(text, at, b"field\n", far);
    let far = farther(text, at, b"fields", far);
    place(text, at, far)
}

fn read_eq_field_rule(
    alloc: Global,
    text: &[u8],
    at: usize,
    left: Boxed<Term>,
    right: Boxed<Term>,
) -> Result<(EqLine, usize), Fault>
    ensures read { Reads text.now result (picked eq_all (eq_field_arms left right) (drop at text.now)) }
    ensures ahead { Ahead text.now at result }
{
    if let Some(next) = behind_word(text, at, b"field\n") {
        let left = left.into_inner();
        let right = right.into_inner();
        return Ok((EqLine::EqField { left, right }, next));
    }
    if let Some(behind) = behind_word(text, at, b"fields") {
        let (lines, next) = read_numbers(alloc, text, behind)?;
        let left = left.into_inner();
        let right = right.into_inner();
        return Ok((EqLine::EqFields { left, right, lines }, next));
    }
    Err(Fault::At(eq_wrong(text, at)))
}

fn read_eq_listed_rule(
    alloc: Global,
    text: &[u8],
    at: usize,
    left: Boxed<Term>,
    right: Boxed<Term>,
) -> Result<(EqLine, usize), Fault>
    ensures read { Reads text.now result (picked eq_all (eq_listed_arms left right) (drop at text.now)) }
    ensures ahead { Ahead text.now at result }
{
    if let Some(behind) = behind_word(text, at, b"cong") {
        let (lines, next) = read_numbers(alloc, text, behind)?;
        let left = left.into_inner();
        let right = right.into_inner();
        return Ok((EqLine::EqCong { left, right, lines }, next));
    }
    if let Some(next) = behind_word(text, at, b"ac\n") {
        let left = left.into_inner();
        let right = right.into_inner();
        return Ok((EqLine::EqAc { left, right }, next));
    }
    if let Some(behind) = behind_word(text, at, b"lin ") {
        let ((times, parts), next) = read_sum(alloc, text, behind)?;
        let left = left.into_inner();
        let right = right.into_inner();
        return Ok((
            EqLine::EqLin {
                left,
                right,
                times,
                parts,
            },
            next,
        ));
    }
    read_eq_field_rule(alloc, text, at, left, right)
}

/// The rule by which two terms are equal.
pub fn read_eq_rule(
    alloc: Global,
    text: &[u8],
    at: usize,
    left: Boxed<Term>,
    right: Boxed<Term>,
) -> Result<(EqLine, usize), Fault>
    ensures read { Reads text.now result (picked eq_all (eq_arms left right) (drop at text.now)) }
    ensures ahead { Ahead text.now at result }
{
    if let Some(behind) = behind_word(text, at, b"hyp ") {
        let ((hyp, _), next) = read_size(text, behind, Closing::Line)?;
        let left = left.into_inner();
        let right = right.into_inner();
        return Ok((EqLine::EqHyp { left, right, hyp }, next));
    }
    if let Some(next) = behind_word(text, at, b"refl\n") {
        let left = left.into_inner();
        let right = right.into_inner();
        return Ok((EqLine::EqRefl { left, right }, next));
    }
    if let Some(behind) = behind_word(text, at, b"sym ") {
        let ((line, _), next) = read_size(text, behind, Closing::Line)?;
        let left = left.into_inner();
        let right = right.into_inner();
        return Ok((EqLine::EqSym { left, right, line }, next));
    }
    if let Some(behind) = behind_word(text, at, b"trans ") {
        let ((first, _), middle) = read_size(text, behind, Closing::Blank)?;
        let ((second, _), next) = read_size(text, middle, Closing::Line)?;
        let left = left.into_inner();
        let right = right.into_inner();
        return Ok((
            EqLine::EqTrans {
                left,
                right,
                first,
                second,
            },
            next,
        ));
    }
    read_eq_listed_rule(alloc, text, at, left, right)
}

fn le_wrong(text: &[u8], at: usize) -> usize
    ensures behind { drop result text.now ≡ drop (most 0 le_all (drop at text.now)) (drop at text.now) }
    ensures within { result ≤ length text.now }
{
    let far = farther(text, at, b"hyp ", 0);
    let far = farther(text, at, b"sum ", far);
    let far = farther(text, at, b"round ", far);
    place(text, at, far)
}

/// The rule by which the left term is at most the right one.
pub fn read_le_rule(
    alloc: Global,
    text: &[u8],
    at: usize,
    left: Boxed<Term>,
    right: Boxed<Term>,
) -> Result<(EqLine, usize), Fault>
    ensures read { Reads text.now result (picked le_all (le_arms left right) (drop at text.now)) }
    ensures ahead { Ahead text.now at result }
{
    if let Some(behind) = behind_word(text, at, b"hyp ") {
        let ((hyp, _), next) = read_size(text, behind, Closing::Line)?;
        let left = left.into_inner();
        let right = right.into_inner();
        return Ok((EqLine::LeHyp { left, right, hyp }, next));
    }
    if let Some(behind) = behind_word(text, at, b"sum ") {
        let ((times, parts), next) = read_sum(alloc, text, behind)?;
        let left = left.into_inner();
        let right = right.into_inner();
        return Ok((
            EqLine::LeSum {
                left,
                right,
                times,
                parts,
            },
            next,
        ));
    }
    if let Some(behind) = behind_word(text, at, b"round ") {
        let ((line, _), next) = read_size(text, behind, Closing::Line)?;
        let left = left.into_inner();
        let right = right.into_inner();
        return Ok((EqLine::LeRound { left, right, line }, next));
    }
    Err(Fault::At(le_wrong(text, at)))
}

fn lt_wrong(text: &[u8], at: usize) -> usize
    ensures behind { drop result text.now ≡ drop (most 0 lt_all (drop at text.now)) (drop at text.now) }
    ensures within { result ≤ length text.now }
{
    let far = farther(text, at, b"hyp ", 0);
    let far = farther(text, at, b"sum ", far);
    place(text, at, far)
}

/// The rule by which the left term is below the right one.
pub fn read_lt_rule(
    alloc: Global,
    text: &[u8],
    at: usize,
    left: Boxed<Term>,
    right: Boxed<Term>,
) -> Result<(EqLine, usize), Fault>
    ensures read { Reads text.now result (picked lt_all (lt_arms left right) (drop at text.now)) }
    ensures ahead { Ahead text.now at result }
{
    if let Some(behind) = behind_word(text, at, b"hyp ") {
        let ((hyp, _), next) = read_size(text, behind, Closing::Line)?;
        let left = left.into_inner();
        let right = right.into_inner();
        return Ok((EqLine::LtHyp { left, right, hyp }, next));
    }
    if let Some(behind) = behind_word(text, at, b"sum ") {
        let ((times, parts), next) = read_sum(alloc, text, behind)?;
        let left = left.into_inner();
        let right = right.into_inner();
        return Ok((
            EqLine::LtSum {
                left,
                right,
                times,
                parts,
            },
            next,
        ));
    }
    Err(Fault::At(lt_wrong(text, at)))
}

fn ending_wrong(text: &[u8], at: usize) -> usize
    ensures behind { drop result text.now ≡ drop (most 0 ending_all (drop at text.now)) (drop at text.now) }
    ensures within { result ≤ length text.now }
{
    let far = farther(text, at, b"neq ", 0);
    let far = farther(text, at, b"const ", far);
    let far = farther(text, at, b"clash ", far);
    let far = farther(text, at, b"pred ", far);
    let far = farther(text, at, b"zero ", far);
    let far = farther(text, at, b"gcd ", far);
    place(text, at, far)
}

fn read_late_ending(alloc: Global, text: &[u8], at: usize) -> Result<(Ending, usize), Fault>
    ensures read { Reads text.now result (picked ending_all ending_late_arms (drop at text.now)) }
    ensures ahead { Ahead text.now at result }
{
    if let Some(behind) = behind_word(text, at, b"pred ") {
        let ((yes, _), middle) = read_size(text, behind, Closing::Blank)?;
        let ((no, lines), next) = read_number_and_more(alloc, text, middle)?;
        return Ok((Ending::Pred { yes, no, lines }, next));
    }
    if let Some(behind) = behind_word(text, at, b"zero ") {
        let ((line, _), next) = read_size(text, behind, Closing::Line)?;
        return Ok((Ending::Zero { line }, next));
    }
    if let Some(behind) = behind_word(text, at, b"gcd ") {
        let ((line, _), next) = read_size(text, behind, Closing::Line)?;
        return Ok((Ending::Gcd { line }, next));
    }
    Err(Fault::At(ending_wrong(text, at)))
}

fn read_worded_ending(alloc: Global, text: &[u8], at: usize) -> Result<(Ending, usize), Fault>
    ensures read { Reads text.now result (picked ending_all ending_arms (drop at text.now)) }
    ensures ahead { Ahead text.now at result }
{
    if let Some(behind) = behind_word(text, at, b"neq ") {
        let ((line, _), middle) = read_size(text, behind, Closing::Blank)?;
        let ((hyp, _), next) = read_size(text, middle, Closing::Line)?;
        return Ok((Ending::Neq { line, hyp }, next));
    }
    if let Some(behind) = behind_word(text, at, b"const ") {
        let ((line, _), next) = read_size(text, behind, Closing::Line)?;
        return Ok((Ending::Const { line }, next));
    }
    if let Some(behind) = behind_word(text, at, b"clash ") {
        let ((line, _), next) = read_size(text, behind, Closing::Line)?;
        return Ok((Ending::Clash { line }, next));
    }
    read_late_ending(alloc, text, at)
}

/// The ending of a block.
pub fn read_ending(alloc: Global, text: &[u8], at: usize) -> Result<(Ending, usize), Fault>
    ensures read { Reads text.now result (ending_code.read (drop at text.now)) }
    ensures ahead { Ahead text.now at result }
{
    read_worded_ending(alloc, text, at)
}
