//! Widths with their journals.
ghost use Rattle.std.specs.Prelude.{◌≡◌, ◌≤◌, codes, length, drop};
ghost use Rattle.ae_choices.specs.Choices.{picked};
ghost use Rattle.ae_choices.specs.Whole.{ReadsWhole};
ghost use Rattle.ae_readers.specs.Readers.{Reads, ReadsExactly, Ahead, most};
ghost use Rattle.ae_stategrammar.specs.Widths.{number_code};
ghost use Rattle.ae_statereader.specs.Lines.{Onward};
ghost use Rattle.ae_storyreader.specs.Widths.{all_ops, all_steps, key_read, named_form_read, numbers_read, op_arms, pair_of, some_key_read, start_read, step_arms, width_read};

use crate::lines::read_form_line;
use crate::stories::{read_story_at, tables_of};
use ae_choices::behind_word;
use ae_core::problems::Signature;
use ae_journal::answers::{NumStep, WideAt};
use ae_journal::lines::Story;
use ae_num::forms::Lin;
use ae_num::numbers::{NumOp, Wide};
use ae_readers::{Closing, Fault, byte_at, farther, place, read_fixed, read_integer, read_size};
use ae_rulereader::AcTables;
use std::alloc::Global;

/// A journal, and the step that leaves the limits after it.
#[derive(Drop)]
pub struct NumberText {
    pub story: Story,
    pub at: WideAt,
}

fn step_wrong(text: &[u8], at: usize) -> usize
    ensures behind { drop result text.now ≡ drop (most 0 all_steps (drop at text.now)) (drop at text.now) }
    ensures within { result ≤ length text.now }
{
    let far = farther(text, at, b"plus ", 0);
    let far = farther(text, at, b"scale ", far);
    let far = farther(text, at, b"subst ", far);
    let far = farther(text, at, b"combine ", far);
    place(text, at, far)
}

// The word of a step.
fn read_step(text: &[u8], at: usize) -> Result<(NumStep, usize), Fault>
    ensures read { Reads text.now result (picked all_steps step_arms (drop at text.now)) }
    ensures ahead { Ahead text.now at result }
{
    if let Some(next) = behind_word(text, at, b"plus ") {
        return Ok((NumStep::Plus, next));
    }
    if let Some(next) = behind_word(text, at, b"scale ") {
        return Ok((NumStep::Scale, next));
    }
    if let Some(next) = behind_word(text, at, b"subst ") {
        return Ok((NumStep::Subst, next));
    }
    if let Some(next) = behind_word(text, at, b"combine ") {
        return Ok((NumStep::Combine, next));
    }
    Err(Fault::At(step_wrong(text, at)))
}

fn op_wrong(text: &[u8], at: usize) -> usize
    ensures behind { drop result text.now ≡ drop (most 0 all_ops (drop at text.now)) (drop at text.now) }
    ensures within { result ≤ length text.now }
{
    let far = farther(text, at, b"mul ", 0);
    let far = farther(text, at, b"add ", far);
    place(text, at, far)
}

// The word of a product or a sum.
fn read_op(text: &[u8], at: usize) -> Result<(NumOp, usize), Fault>
    ensures read { Reads text.now result (picked all_ops op_arms (drop at text.now)) }
    ensures ahead { Ahead text.now at result }
{
    if let Some(next) = behind_word(text, at, b"mul ") {
        return Ok((NumOp::Mul, next));
    }
    if let Some(next) = behind_word(text, at, b"add ") {
        return Ok((NumOp::Add, next));
    }
    Err(Fault::At(op_wrong(text, at)))
}

// The two numbers, up to the end of the line.
fn read_numbers(text: &[u8], at: usize, op: NumOp) -> Result<(Wide, usize), Fault>
    ensures read { Reads text.now result (numbers_read op (drop at text.now)) }
    ensures ahead { Ahead text.now at result }
{
    let ((left, _), behind) = read_integer(text, at, Closing::Blank)?;
    let ((right, _), next) = read_integer(text, behind, Closing::Line)?;
    Ok((Wide { op, left, right }, next))
}

// The first line: the step, and the product or the sum that leaves the limits.
fn read_start(text: &[u8], at: usize) -> Result<((NumStep, Wide), usize), Fault>
    ensures read { Reads text.now result (start_read (drop at text.now)) }
    ensures ahead { Ahead text.now at result }
{
    let (_, first) = read_fixed(text, at, b"wide ")?;
    let (step, second) = read_step(text, first)?;
    let (op, third) = read_op(text, second)?;
    let (wide, next) = read_numbers(text, third, op)?;
    Ok(((step, wide), next))
}

fn read_left(alloc: Global, text: &[u8], at: usize) -> Result<(Lin, usize), Fault>
    ensures read { Reads text.now result (named_form_read (codes "left ") (drop at text.now)) }
    ensures ahead { Ahead text.now at result }
{
    let (_, behind) = read_fixed(text, at, b"left ")?;
    let (form, next) = read_form_line(alloc, text, behind)?;
    Ok((form, next))
}

fn read_right(alloc: Global, text: &[u8], at: usize) -> Result<(Lin, usize), Fault>
    ensures read { Reads text.now result (named_form_read (codes "right ") (drop at text.now)) }
    ensures ahead { Ahead text.now at result }
{
    let (_, behind) = read_fixed(text, at, b"right ")?;
    let (form, next) = read_form_line(alloc, text, behind)?;
    Ok((form, next))
}

fn read_some_key(text: &[u8], at: usize) -> Result<(Option<usize>, usize), Fault>
    ensures read { Reads text.now result (some_key_read (drop at text.now)) }
    ensures ahead { Ahead text.now at result }
{
    let (_, behind) = read_fixed(text, at, b"key ")?;
    let ((key, _), next) = read_size(text, behind, Closing::Line)?;
    Ok((Some(key), next))
}

// The line of the key, where the step has one.
fn read_key(text: &[u8], at: usize, step: NumStep) -> Result<(Option<usize>, usize), Fault>
    ensures read { Reads text.now result (key_read step (drop at text.now)) }
    ensures onward { Onward text.now at result }
{
    match step {
        NumStep::Plus => Ok((None, at)),
        NumStep::Scale => Ok((None, at)),
        NumStep::Subst => read_some_key(text, at),
        NumStep::Combine => read_some_key(text, at),
    }
}

fn read_parts(
    alloc: Global,
    tables: &AcTables<'_>,
    text: &[u8],
    at: usize,
) -> Result<((Story, WideAt), usize), Fault>
    ensures read { Reads text.now result (width_read tables.now.terms.signature.now (drop at text.now)) }
    ensures ahead { Ahead text.now at result }
{
    let ((step, wide), first) = read_start(text, at)?;
    let (left, second) = read_left(alloc, text, first)?;
    let (key, third) = read_key(text, second, step)?;
    let (right, fourth) = read_right(alloc, text, third)?;
    let (story, next) = read_story_at(alloc, tables, text, fourth)?;
    let width = WideAt {
        step,
        left,
        key,
        right,
        wide,
    };
    Ok(((story, width), next))
}

/// The width with its journal that begins at a place.
pub fn read_number_at(
    alloc: Global,
    tables: &AcTables<'_>,
    text: &[u8],
    at: usize,
) -> Result<((Story, WideAt), usize), Fault>
    ensures read { Reads text.now result ((number_code tables.now.terms.signature.now).read (drop at text.now)) }
    ensures exact { ReadsExactly (number_code tables.now.terms.signature.now) text.now at result }
    ensures ahead { Ahead text.now at result }
{
    read_parts(alloc, tables, text, at)
}

fn read_whole(alloc: Global, tables: &AcTables<'_>, text: &[u8]) -> Result<NumberText, Fault>
    ensures { ReadsWhole (number_code tables.now.terms.signature.now) text.now (pair_of result) }
{
    match read_number_at(alloc, tables, text, 0) {
        Err(fault) => Err(fault),
        Ok((found, next)) => {
            if let Some(_) = byte_at(text, next) {
                return Err(Fault::At(next));
            }
            let (story, at) = found;
            Ok(NumberText { story, at })
        }
    }
}

/// The width with its journal whose text this is, with nothing behind it. `At` with the first byte that no text of a width continues (the end of the text where it ends
/// too early), `WideNumber` with the first numeral outside the limits before any such byte, `Memory` where there is none for what the text says.
pub fn read_number(alloc: Global, signature: &Signature, text: &[u8]) -> Result<NumberText, Fault>
    ensures { ReadsWhole (number_code signature.now) text.now (pair_of result) }
{
    match tables_of(alloc, signature) {
        Err(_) => Err(Fault::Memory),
        Ok(tables) => read_whole(alloc, tables.get(), text),
    }
}
