//! The parts of goals, one after another.
ghost use Rattle.std.specs.Prelude.{◌≡◌, ◌≢◌, ◌≤◌, ◌<◌, ◌+◌, List, [], length, drop, IfOk, IfErr, Ok};
ghost use Rattle.ae_choices.specs.Choices.{picked};
ghost use Rattle.ae_choices.specs.Whole.{ReadsWhole};
ghost use Rattle.ae_parts.specs.Codes.{part_code, parts_code};
ghost use Rattle.ae_parts.specs.Reading.{all_words, part_arms, part_read, steps_read};
ghost use Rattle.ae_parts.specs.declared.parts.Part.{Part};
ghost use Rattle.ae_proofreader.specs.Whole.{StandsIn};
ghost use Rattle.ae_readers.specs.Readers.{Reads, Ahead, fixed_read, most};
ghost use Rattle.ae_readers.specs.declared.fault.Fault.TheVariants.{Memory as NoMemory};
ghost use Rattle.ae_statereader.specs.Lines.{Onward};

use crate::limits::read_limit;
use crate::parts::Part;
use ae_base::lists::List;
use ae_base::words::Word;
use ae_choices::behind_word;
use ae_core::problems::Signature;
use ae_proofreader::read_proof_at;
use ae_readers::{Fault, byte_at, farther, place, read_fixed};
use ae_rulereader::AcTables;
use ae_statereader::read_state_at;
use ae_storyreader::{read_number_at, read_story_at};
use std::alloc::Global;

// Where the words of no answer go on.
fn words_wrong(text: &[u8], at: usize) -> usize
    ensures behind { drop result text.now ≡ drop (most 0 all_words (drop at text.now)) (drop at text.now) }
    ensures within { result ≤ length text.now }
{
    let far = farther(text, at, b" Valid\n", 0);
    let far = farther(text, at, b" I don't know\n", far);
    let far = farther(text, at, b" Limit steps ", far);
    let far = farther(text, at, b" Limit number\n", far);
    place(text, at, far)
}

// The number of steps, and the journal.
fn read_steps(
    alloc: Global,
    tables: &AcTables<'_>,
    text: &[u8],
    at: usize,
) -> Result<(Part, usize), Fault>
    ensures read { Reads text.now result (steps_read tables.now.terms.signature.now (drop at text.now)) }
    ensures ahead { Ahead text.now at result }
{
    let ((limit, _), behind) = read_limit(text, at)?;
    let (story, next) = read_story_at(alloc, tables, text, behind)?;
    Ok((Part::Steps { limit, story }, next))
}

// What stands behind the goal's name.
fn read_answer(
    alloc: Global,
    tables: &AcTables<'_>,
    text: &[u8],
    at: usize,
) -> Result<(Part, usize), Fault>
    ensures read { Reads text.now result (picked all_words (part_arms tables.now.terms.signature.now) (drop at text.now)) }
    ensures ahead { Ahead text.now at result }
{
    if let Some(behind) = behind_word(text, at, b" Valid\n") {
        let (proof, next) = read_proof_at(alloc, &tables.terms, text, behind)?;
        return Ok((Part::Valid(proof), next));
    }
    if let Some(behind) = behind_word(text, at, b" I don't know\n") {
        let (state, next) = read_state_at(alloc, tables, text, behind)?;
        return Ok((Part::Unknown(state), next));
    }
    if let Some(behind) = behind_word(text, at, b" Limit steps ") {
        return read_steps(alloc, tables, text, behind);
    }
    if let Some(behind) = behind_word(text, at, b" Limit number\n") {
        let ((story, width), next) = read_number_at(alloc, tables, text, behind)?;
        return Ok((Part::Number { story, width }, next));
    }
    Err(Fault::At(words_wrong(text, at)))
}

// A goal's name, which may be empty.
fn read_name(text: &[u8], at: usize, name: &[u8]) -> Result<((), usize), Fault>
    ensures read { Reads text.now result (fixed_read name.now (drop at text.now)) }
    ensures onward { Onward text.now at result }
{
    if name.is_empty() {
        return Ok(((), at));
    }
    read_fixed(text, at, name)
}

fn read_goal(
    alloc: Global,
    tables: &AcTables<'_>,
    name: &Word,
    text: &[u8],
    at: usize,
) -> Result<(Part, usize), Fault>
    ensures read { Reads text.now result (part_read tables.now.terms.signature.now name.now (drop at text.now)) }
    ensures ahead { Ahead text.now at result }
{
    let (_, begin) = read_fixed(text, at, b"goal ")?;
    let (_, behind) = read_name(text, begin, name.as_str().as_bytes())?;
    read_answer(alloc, tables, text, behind)
}

// The part of the goal of this name.
fn read_part(
    alloc: Global,
    tables: &AcTables<'_>,
    name: &Word,
    text: &[u8],
    at: usize,
) -> Result<(Part, usize), Fault>
    ensures read { Reads text.now result ((part_code tables.now.terms.signature.now name.now).read (drop at text.now)) }
    ensures ahead { Ahead text.now at result }
{
    read_goal(alloc, tables, name, text, at)
}

// A part for each name, from the text's first byte on.
fn read_all(
    alloc: Global,
    tables: &AcTables<'_>,
    names: &[Word],
    text: &[u8],
) -> Result<(List<Part>, usize), Fault>
    ensures read { Reads text.now result ((parts_code tables.now.terms.signature.now names.now).read text.now) }
    ensures onward { Onward text.now 0 result }
{
    let mut parts = List::new(alloc);
    let mut at = 0;
    for name in names {
        let (part, next) = match read_part(alloc, tables, name, text, at) {
            Ok(found) => found,
            Err(fault) => return Err(fault),
        };
        if let Err(_) = parts.push(part) {
            return Err(Fault::Memory);
        }
        at = next;
    }
    Ok((parts, at))
}

fn read_text(
    alloc: Global,
    tables: &AcTables<'_>,
    names: &[Word],
    text: &[u8],
) -> Result<List<Part>, Fault>
    ensures exact { ReadsWhole (parts_code tables.now.terms.signature.now names.now) text.now result }
    ensures within { IfErr result (λ f. StandsIn text.now f) }
    ensures none { IfErr result (λ f. f ≢ NoMemory → (parts : List Part) → ¬ (ReadsWhole (parts_code tables.now.terms.signature.now names.now) text.now (Ok parts))) }
{
    match read_all(alloc, tables, names, text) {
        Err(fault) => Err(fault),
        Ok((parts, end)) => {
            if end < text.len() {
                return Err(Fault::At(end));
            }
            Ok(parts)
        }
    }
}

/// The parts of the goals of these names, in their order, whose text this is: nothing stands between them and nothing behind the last one. `At`: exactly where it is no
/// such text, the place of the first byte that no such text continues, as one of a part that isn't its goal's or a byte behind the last part, or the text's length where
/// its end comes too early. `WideNumber`: the place of the first numeral outside the limits before any such byte. `Memory`: there is not enough of it. Neither of the first two comes at a text of parts.
pub fn read_parts(
    alloc: Global,
    signature: &Signature,
    names: &[Word],
    text: &[u8],
) -> Result<List<Part>, Fault>
    ensures exact { ReadsWhole (parts_code signature.now names.now) text.now result }
    ensures within { IfErr result (λ f. StandsIn text.now f) }
    ensures none { IfErr result (λ f. f ≢ NoMemory → (parts : List Part) → ¬ (ReadsWhole (parts_code signature.now names.now) text.now (Ok parts))) }
{
    match AcTables::new(alloc, signature) {
        Err(_) => Err(Fault::Memory),
        Ok(tables) => read_text(alloc, &tables, names, text),
    }
}
