//! Triggers of a block.
ghost use Rattle.std.specs.Prelude.{◌≡◌, ◌<◌, ◌≤◌, ◌+◌, length, drop};
ghost use Rattle.ae_formulareader.specs.Formulas.{square_terms, trigger_code, trigger_rows, trigger_read};
ghost use Rattle.ae_readers.specs.Readers.{Reads, Ahead, list_read, row_read};

use ae_base::lists::List;
use ae_core::terms::{Sort, Term};
use ae_readers::{Closing, Fault, byte_at, read_closing, read_fixed};
use ae_termreader::{Tables, read_term};
use std::alloc::Global;

// Terms parted by blanks, up to `]`.
fn read_square_row(
    alloc: Global,
    tables: &Tables<'_>,
    env: &[Sort],
    text: &[u8],
    from: usize,
) -> Result<(List<Term>, usize), Fault>
    ensures read { Reads text.now result (row_read (square_terms tables.now.signature.now env.now) (drop from text.now)) }
    ensures ahead { Ahead text.now from result }
{
    let mut terms = List::new(alloc);
    let mut at = from;
    'values: loop {
        let ((term, close), next) = match read_term(alloc, tables, env, text, at, Closing::Square) {
            Ok(found) => found,
            Err(fault) => return Err(fault),
        };
        if let Err(_) = terms.push(term) {
            return Err(Fault::Memory);
        }
        at = next;
        if close != 32 {
            return Ok((terms, at));
        }
    }
}

/// Terms behind `[`, up to `]`.
pub fn read_square_terms(
    alloc: Global,
    tables: &Tables<'_>,
    env: &[Sort],
    text: &[u8],
    at: usize,
) -> Result<(List<Term>, usize), Fault>
    ensures read { Reads text.now result (list_read 93 (square_terms tables.now.signature.now env.now) (drop at text.now)) }
    ensures ahead { Ahead text.now at result }
{
    match byte_at(text, at) {
        None => Err(Fault::At(at)),
        Some(byte) => {
            if byte == b']' {
                return Ok((List::new(alloc), at + 1));
            }
            read_square_row(alloc, tables, env, text, at)
        }
    }
}

fn read_listed(
    alloc: Global,
    tables: &Tables<'_>,
    env: &[Sort],
    text: &[u8],
    at: usize,
) -> Result<((List<Term>, u8), usize), Fault>
    ensures read { Reads text.now result (trigger_read tables.now.signature.now env.now (drop at text.now)) }
    ensures ahead { Ahead text.now at result }
{
    let (_, open) = read_fixed(text, at, b"[")?;
    let (terms, end) = read_square_terms(alloc, tables, env, text, open)?;
    let (close, next) = read_closing(text, end, Closing::Square)?;
    Ok(((terms, close), next))
}

fn read_trigger(
    alloc: Global,
    tables: &Tables<'_>,
    env: &[Sort],
    text: &[u8],
    at: usize,
) -> Result<((List<Term>, u8), usize), Fault>
    ensures read { Reads text.now result ((trigger_code tables.now.signature.now env.now).read (drop at text.now)) }
    ensures ahead { Ahead text.now at result }
{
    read_listed(alloc, tables, env, text, at)
}

fn read_trigger_row(
    alloc: Global,
    tables: &Tables<'_>,
    env: &[Sort],
    text: &[u8],
    from: usize,
) -> Result<(List<List<Term>>, usize), Fault>
    ensures read { Reads text.now result (row_read (trigger_rows tables.now.signature.now env.now) (drop from text.now)) }
    ensures ahead { Ahead text.now from result }
{
    let mut triggers = List::new(alloc);
    let mut at = from;
    'values: loop {
        let ((terms, close), next) = match read_trigger(alloc, tables, env, text, at) {
            Ok(found) => found,
            Err(fault) => return Err(fault),
        };
        if let Err(_) = triggers.push(terms) {
            return Err(Fault::Memory);
        }
        at = next;
        if close != 32 {
            return Ok((triggers, at));
        }
    }
}

/// Triggers behind `[`, up to `]`.
pub fn read_triggers(
    alloc: Global,
    tables: &Tables<'_>,
    env: &[Sort],
    text: &[u8],
    at: usize,
) -> Result<(List<List<Term>>, usize), Fault>
    ensures read { Reads text.now result (list_read 93 (trigger_rows tables.now.signature.now env.now) (drop at text.now)) }
    ensures ahead { Ahead text.now at result }
{
    match byte_at(text, at) {
        None => Err(Fault::At(at)),
        Some(byte) => {
            if byte == b']' {
                return Ok((List::new(alloc), at + 1));
            }
            read_trigger_row(alloc, tables, env, text, at)
        }
    }
}
