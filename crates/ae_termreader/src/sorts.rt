//! Sorts.
ghost use Rattle.std.specs.Prelude.{◌≡◌, ◌<◌, ◌≤◌, ◌+◌, length, drop};
ghost use Rattle.ae_codes.specs.Closers.{closers};
ghost use Rattle.ae_prooftext.specs.Grammar.{sort_code};
ghost use Rattle.ae_prooftext.specs.Words.{type_names};
ghost use Rattle.ae_readers.specs.Readers.{Reads, ReadsExactly, Ahead, close_of, row_read};
ghost use Rattle.ae_termreader.specs.Sorts.{sort_turn, rigid_read, atom_read, compound_read, sort_rows, sorts_read, atom_of, side};

use crate::names::read_lone;
use crate::tables::Tables;
use ae_base::lists::List;
use ae_core::terms::Sort;
use ae_readers::{Closing, Fault, byte_at, read_closing, read_size};
use std::alloc::Global;

/// The sort that begins at a place, and the byte that closes it.
#[cycle(read_sort)]
pub fn read_sort(
    alloc: Global,
    tables: &Tables<'_>,
    text: &[u8],
    at: usize,
    closing: Closing,
) -> Result<((Sort, u8), usize), Fault>
    ensures read { Reads text.now result ((sort_code tables.now.signature.now (close_of closing)).read (drop at text.now)) }
    ensures exact { ReadsExactly (sort_code tables.now.signature.now (close_of closing)) text.now at result }
    ensures ahead { Ahead text.now at result }
{
    read_by_byte(alloc, tables, text, at, closing)
}

#[cycle(read_sort)]
fn read_by_byte(
    alloc: Global,
    tables: &Tables<'_>,
    text: &[u8],
    at: usize,
    closing: Closing,
) -> Result<((Sort, u8), usize), Fault>
    ensures read { Reads text.now result (sort_turn tables.now.signature.now (close_of closing) (drop at text.now)) }
    ensures ahead { Ahead text.now at result }
{
    match byte_at(text, at) {
        None => Err(Fault::At(at)),
        Some(byte) => {
            if tables.named && byte == b'(' {
                return read_compound(alloc, tables, text, at + 1, closing);
            }
            if byte == b'\'' {
                read_rigid(text, at + 1, closing)
            } else {
                read_atom(alloc, tables, text, at, closing)
            }
        }
    }
}

fn read_rigid(text: &[u8], at: usize, closing: Closing) -> Result<((Sort, u8), usize), Fault>
    ensures read { Reads text.now result (rigid_read (close_of closing) (drop at text.now)) }
    ensures ahead { Ahead text.now at result }
{
    let ((number, close), next) = read_size(text, at, closing)?;
    Ok(((Sort::Rigid(number), close), next))
}

fn atom_of(alloc: Global, place: usize) -> Sort
    ensures { result ≡ atom_of place }
{
    match place {
        0 => Sort::Int,
        1 => Sort::Real,
        2 => Sort::Bool,
        3 => Sort::Unit,
        _ => Sort::Named {
            head: place - 4,
            args: List::new(alloc),
        },
    }
}

fn read_atom(
    alloc: Global,
    tables: &Tables<'_>,
    text: &[u8],
    at: usize,
    closing: Closing,
) -> Result<((Sort, u8), usize), Fault>
    ensures read { Reads text.now result (atom_read tables.now.signature.now (close_of closing) (drop at text.now)) }
    ensures ahead { Ahead text.now at result }
{
    let ((place, close), next) = read_lone(text, at, &tables.sort_words, closing)?;
    Ok(((atom_of(alloc, place), close), next))
}

#[cycle(read_sort)]
fn read_compound(
    alloc: Global,
    tables: &Tables<'_>,
    text: &[u8],
    at: usize,
    closing: Closing,
) -> Result<((Sort, u8), usize), Fault>
    ensures read { Reads text.now result (compound_read tables.now.signature.now (close_of closing) (drop at text.now)) }
    ensures ahead { Ahead text.now at result }
{
    let ((head, _), behind) = read_lone(text, at, &tables.type_words, Closing::Blank)?;
    let (args, end) = read_sort_row(alloc, tables, text, behind, false)?;
    let (close, next) = read_closing(text, end, closing)?;
    Ok(((Sort::Named { head, args }, close), next))
}

/// Sorts parted by blanks, up to the bracket that closes them.
#[cycle(read_sort)]
pub fn read_sort_row(
    alloc: Global,
    tables: &Tables<'_>,
    text: &[u8],
    from: usize,
    square: bool,
) -> Result<(List<Sort>, usize), Fault>
    ensures read { Reads text.now result (row_read (sort_rows tables.now.signature.now square) (drop from text.now)) }
    ensures ahead { Ahead text.now from result }
{
    let closing = side_of(square);
    let mut sorts = List::new(alloc);
    let mut at = from;
    'values: loop {
        let ((sort, close), next) = match read_sort(alloc, tables, text, at, closing) {
            Ok(found) => found,
            Err(fault) => return Err(fault),
        };
        if let Err(_) = sorts.push(sort) {
            return Err(Fault::Memory);
        }
        at = next;
        if close != 32 {
            return Ok((sorts, at));
        }
    }
}

fn side_of(square: bool) -> Closing
    ensures { result ≡ side square }
{
    if square {
        Closing::Square
    } else {
        Closing::Round
    }
}

/// Sorts behind `[`, up to `]`.
pub fn read_sorts(
    alloc: Global,
    tables: &Tables<'_>,
    text: &[u8],
    at: usize,
) -> Result<(List<Sort>, usize), Fault>
    ensures read { Reads text.now result (sorts_read tables.now.signature.now (drop at text.now)) }
    ensures ahead { Ahead text.now at result }
{
    match byte_at(text, at) {
        None => Err(Fault::At(at)),
        Some(byte) => {
            if byte == b']' {
                return Ok((List::new(alloc), at + 1));
            }
            read_sort_row(alloc, tables, text, at, true)
        }
    }
}
