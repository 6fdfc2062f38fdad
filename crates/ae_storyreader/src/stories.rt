//! Whole journals.
ghost use Rattle.std.specs.Prelude.{◌≡◌, ◌≤◌, ◌<◌, ◌+◌, length, drop, IfOk};
ghost use Rattle.ae_choices.specs.Whole.{ReadsWhole};
ghost use Rattle.ae_readers.specs.Readers.{Reads, ReadsExactly, Ahead};
ghost use Rattle.ae_stategrammar.specs.Journals.{lines, names, story};
ghost use Rattle.ae_storyreader.specs.Stories.{story_read};

use crate::lines::read_line;
use ae_base::lists::{Boxed, List};
use ae_core::problems::Signature;
use ae_core::terms::Term;
use ae_journal::lines::{Line, Story};
use ae_readers::{Fault, byte_at, read_fixed};
use ae_rulereader::AcTables;
use ae_statereader::read_name_lines;
use std::alloc::{AllocError, Global};

/// Lines, up to the end.
pub type Lines = (List<Line>, ());
/// The terms of names, and the lines behind them.
pub type Named = (List<Term>, Lines);

fn read_lines(
    alloc: Global,
    tables: &AcTables<'_>,
    text: &[u8],
    from: usize,
) -> Result<(Lines, usize), Fault>
    ensures read { Reads text.now result ((lines tables.now.terms.signature.now).read (drop from text.now)) }
    ensures ahead { Ahead text.now from result }
{
    let mut lines = List::new(alloc);
    let mut at = from;
    'lines: loop {
        let (found, next) = match read_line(alloc, tables, text, at) {
            Ok(read) => read,
            Err(fault) => return Err(fault),
        };
        match found {
            None => return Ok(((lines, ()), next)),
            Some(line) => {
                if let Err(_) = lines.push(line) {
                    return Err(Fault::Memory);
                }
            }
        }
        at = next;
    }
}

fn read_names(
    alloc: Global,
    tables: &AcTables<'_>,
    text: &[u8],
    at: usize,
) -> Result<(Named, usize), Fault>
    ensures read { Reads text.now result ((names tables.now.terms.signature.now).read (drop at text.now)) }
    ensures ahead { Ahead text.now at result }
{
    let (terms, behind) = read_name_lines(alloc, &tables.terms, text, at)?;
    let (rest, next) = read_lines(alloc, tables, text, behind)?;
    Ok(((terms, rest), next))
}

fn read_parts(
    alloc: Global,
    tables: &AcTables<'_>,
    text: &[u8],
    at: usize,
) -> Result<(Story, usize), Fault>
    ensures read { Reads text.now result (story_read tables.now.terms.signature.now (drop at text.now)) }
    ensures ahead { Ahead text.now at result }
{
    let (_, behind) = read_fixed(text, at, b"journal 1\n")?;
    let ((names, (lines, _)), next) = read_names(alloc, tables, text, behind)?;
    Ok((Story { names, lines }, next))
}

/// The journal that begins at a place.
pub fn read_story_at(
    alloc: Global,
    tables: &AcTables<'_>,
    text: &[u8],
    at: usize,
) -> Result<(Story, usize), Fault>
    ensures read { Reads text.now result ((story tables.now.terms.signature.now).read (drop at text.now)) }
    ensures exact { ReadsExactly (story tables.now.terms.signature.now) text.now at result }
    ensures ahead { Ahead text.now at result }
{
    read_parts(alloc, tables, text, at)
}

/// The words of a signature in a box, since they are many lists; `Err` where there is no memory for them.
pub fn tables_of<'a>(
    alloc: Global,
    signature: &'a Signature,
) -> Result<Boxed<AcTables<'a>>, AllocError>
    ensures { IfOk result (λ t. t.terms.signature.now ≡ signature.now) }
{
    let tables = AcTables::new(alloc, signature)?;
    let held = Boxed::new(alloc, tables)?;
    Ok(held)
}

fn read_whole(alloc: Global, tables: &AcTables<'_>, text: &[u8]) -> Result<Story, Fault>
    ensures { ReadsWhole (story tables.now.terms.signature.now) text.now result }
{
    match read_story_at(alloc, tables, text, 0) {
        Err(fault) => Err(fault),
        Ok((found, next)) => {
            if let Some(_) = byte_at(text, next) {
                return Err(Fault::At(next));
            }
            Ok(found)
        }
    }
}

/// The journal whose text this is, with nothing behind it. `At` with the first byte that no text of a journal continues (the end of the text where it ends too early),
/// `WideNumber` with the first numeral outside the limits before any such byte, `Memory` where there is none for what the text says.
pub fn read_story(alloc: Global, signature: &Signature, text: &[u8]) -> Result<Story, Fault>
    ensures { ReadsWhole (story signature.now) text.now result }
{
    match tables_of(alloc, signature) {
        Err(_) => Err(Fault::Memory),
        Ok(tables) => read_whole(alloc, tables.get(), text),
    }
}
