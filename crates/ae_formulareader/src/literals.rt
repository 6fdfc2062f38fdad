//! Literals and clauses.
ghost use Rattle.std.specs.Prelude.{◌≡◌, ◌<◌, ◌≤◌, ◌+◌, length, drop};
ghost use Rattle.ae_prooftext.specs.Grammar.{clause_code};
ghost use Rattle.ae_formulareader.specs.Literals.{sign_read, literal_code, literal_read, literal_rows};
ghost use Rattle.ae_readers.specs.Readers.{Reads, ReadsExactly, Ahead, close_of, list_read, row_read};

use crate::formulas::read_positive;
use ae_base::lists::List;
use ae_core::formulas::Lit;
use ae_readers::{Closing, Fault, byte_at};
use ae_termreader::Tables;
use std::alloc::Global;

// The sign of a literal.
fn read_sign(text: &[u8], at: usize) -> Result<(u8, usize), Fault>
    ensures read { Reads text.now result (sign_read (drop at text.now)) }
    ensures ahead { Ahead text.now at result }
{
    match byte_at(text, at) {
        None => Err(Fault::At(at)),
        Some(byte) => {
            if byte == b'+' || byte == b'-' {
                Ok((byte, at + 1))
            } else {
                Err(Fault::At(at))
            }
        }
    }
}

fn read_signed(
    alloc: Global,
    tables: &Tables<'_>,
    text: &[u8],
    at: usize,
    closing: Closing,
) -> Result<((Lit, u8), usize), Fault>
    ensures read { Reads text.now result (literal_read tables.now.signature.now (close_of closing) (drop at text.now)) }
    ensures ahead { Ahead text.now at result }
{
    let (sign, behind) = read_sign(text, at)?;
    let ((formula, close), next) = read_positive(alloc, tables, text, behind, closing)?;
    let positive = sign == b'+';
    Ok(((Lit { positive, formula }, close), next))
}

/// The literal that begins at a place, a sign and a closed formula that is no negation, and the byte that closes it.
pub fn read_literal(
    alloc: Global,
    tables: &Tables<'_>,
    text: &[u8],
    at: usize,
    closing: Closing,
) -> Result<((Lit, u8), usize), Fault>
    ensures read { Reads text.now result ((literal_code tables.now.signature.now (close_of closing)).read (drop at text.now)) }
    ensures exact { ReadsExactly (literal_code tables.now.signature.now (close_of closing)) text.now at result }
    ensures ahead { Ahead text.now at result }
{
    read_signed(alloc, tables, text, at, closing)
}

fn read_literal_row(
    alloc: Global,
    tables: &Tables<'_>,
    text: &[u8],
    from: usize,
) -> Result<(List<Lit>, usize), Fault>
    ensures read { Reads text.now result (row_read (literal_rows tables.now.signature.now) (drop from text.now)) }
    ensures ahead { Ahead text.now from result }
{
    let mut literals = List::new(alloc);
    let mut at = from;
    'values: loop {
        let ((literal, close), next) = match read_literal(
            alloc,
            tables,
            text,
            at,
            Closing::Square,
        ) {
            Ok(found) => found,
            Err(fault) => return Err(fault),
        };
        if let Err(_) = literals.push(literal) {
            return Err(Fault::Memory);
        }
        at = next;
        if close != 32 {
            return Ok((literals, at));
        }
    }
}

fn read_listed(
    alloc: Global,
    tables: &Tables<'_>,
    text: &[u8],
    at: usize,
) -> Result<(List<Lit>, usize), Fault>
    ensures read { Reads text.now result (list_read 93 (literal_rows tables.now.signature.now) (drop at text.now)) }
    ensures ahead { Ahead text.now at result }
{
    match byte_at(text, at) {
        None => Err(Fault::At(at)),
        Some(byte) => {
            if byte == b']' {
                return Ok((List::new(alloc), at + 1));
            }
            read_literal_row(alloc, tables, text, at)
        }
    }
}

/// The literals of a clause behind its `[`, up to `]`.
pub fn read_clause(
    alloc: Global,
    tables: &Tables<'_>,
    text: &[u8],
    at: usize,
) -> Result<(List<Lit>, usize), Fault>
    ensures read { Reads text.now result ((clause_code tables.now.signature.now).read (drop at text.now)) }
    ensures exact { ReadsExactly (clause_code tables.now.signature.now) text.now at result }
    ensures ahead { Ahead text.now at result }
{
    read_listed(alloc, tables, text, at)
}
