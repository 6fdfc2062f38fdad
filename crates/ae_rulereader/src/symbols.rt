//! Associative and commutative symbols.
ghost use Rattle.std.specs.Prelude.{◌≡◌, drop, get_or};
ghost use Rattle.ae_codes.specs.Closers.{by_blank, closers};
ghost use Rattle.ae_prooftext.specs.SortTexts.{fine};
ghost use Rattle.ae_readers.specs.Readers.{Reads, ReadsExactly, Ahead, named_read};
ghost use Rattle.ae_rulereader.specs.Symbols.{int_read, real_read, product_read, star_read, plain_read, sorted_read, symbol_read};
ghost use Rattle.ae_stategrammar.specs.Sides.{symbol};

use crate::tables::AcTables;
use ae_base::lists::List;
use ae_core::problems::AcSymbol;
use ae_core::terms::{Head, Op};
use ae_readers::{Closing, Fault, Form, byte_at, read_fixed, read_name};
use ae_termreader::{Names, read_sorts};
use std::alloc::Global;

/// The associative and commutative symbol that begins at a place, and the blank behind it.
pub fn read_symbol(
    alloc: Global,
    tables: &AcTables<'_>,
    text: &[u8],
    at: usize,
) -> Result<(AcSymbol, usize), Fault>
    ensures read { Reads text.now result ((symbol tables.now.terms.signature.now).read (drop at text.now)) }
    ensures exact { ReadsExactly (symbol tables.now.terms.signature.now) text.now at result }
    ensures ahead { Ahead text.now at result }
{
    read_by_byte(alloc, tables, text, at)
}

fn read_by_byte(
    alloc: Global,
    tables: &AcTables<'_>,
    text: &[u8],
    at: usize,
) -> Result<(AcSymbol, usize), Fault>
    ensures read { Reads text.now result (symbol_read tables.now.terms.signature.now (drop at text.now)) }
    ensures ahead { Ahead text.now at result }
{
    match byte_at(text, at) {
        None => Err(Fault::At(at)),
        Some(byte) => {
            if tables.some_plain && byte > 64 {
                return read_plain(alloc, tables, text, at);
            }
            if tables.some_sorted && byte == b'(' {
                return read_sorted(alloc, tables, text, at + 1);
            }
            read_star(alloc, text, at)
        }
    }
}

fn number_at(numbers: &[usize], place: usize) -> usize
    ensures { result ≡ get_or numbers.now place 0 }
{
    if place < numbers.len() {
        numbers[place]
    } else {
        0
    }
}

fn name_among(text: &[u8], at: usize, words: &[List<u8>]) -> Result<((usize, u8), usize), Fault>
    ensures read { Reads text.now result (named_read fine (closers by_blank.one by_blank.two) words.now (drop at text.now)) }
    ensures ahead { Ahead text.now at result }
{
    read_name(text, at, words, Form::Lone, Closing::Blank)
}

// The name that begins at a place, by its first place in the table, and the blank behind it.
fn read_word(text: &[u8], at: usize, names: &Names) -> Result<((usize, u8), usize), Fault>
    ensures read { Reads text.now result (named_read fine (closers by_blank.one by_blank.two) names.now.words (drop at text.now)) }
    ensures ahead { Ahead text.now at result }
{
    name_among(text, at, names.words.as_slice())
}

fn read_plain(
    alloc: Global,
    tables: &AcTables<'_>,
    text: &[u8],
    at: usize,
) -> Result<(AcSymbol, usize), Fault>
    ensures read { Reads text.now result (plain_read tables.now.terms.signature.now (drop at text.now)) }
    ensures ahead { Ahead text.now at result }
{
    let ((place, _), next) = read_word(text, at, &tables.plain_words)?;
    let head = Head::Symbol(number_at(tables.plain.as_slice(), place));
    Ok((
        AcSymbol {
            head,
            sorts: List::new(alloc),
        },
        next,
    ))
}

fn read_sorted(
    alloc: Global,
    tables: &AcTables<'_>,
    text: &[u8],
    at: usize,
) -> Result<(AcSymbol, usize), Fault>
    ensures read { Reads text.now result (sorted_read tables.now.terms.signature.now (drop at text.now)) }
    ensures ahead { Ahead text.now at result }
{
    let ((place, _), behind) = read_word(text, at, &tables.sorted_words)?;
    let (_, open) = read_fixed(text, behind, b"[")?;
    let (sorts, end) = read_sorts(alloc, &tables.terms, text, open)?;
    let (_, next) = read_fixed(text, end, b") ")?;
    let head = Head::Symbol(number_at(tables.sorted.as_slice(), place));
    Ok((AcSymbol { head, sorts }, next))
}

fn read_star(alloc: Global, text: &[u8], at: usize) -> Result<(AcSymbol, usize), Fault>
    ensures read { Reads text.now result (star_read (drop at text.now)) }
    ensures ahead { Ahead text.now at result }
{
    let (_, behind) = read_fixed(text, at, b"*")?;
    let (symbol, next) = read_product(alloc, text, behind)?;
    Ok((symbol, next))
}

fn read_product(alloc: Global, text: &[u8], at: usize) -> Result<(AcSymbol, usize), Fault>
    ensures read { Reads text.now result (product_read (drop at text.now)) }
    ensures ahead { Ahead text.now at result }
{
    match byte_at(text, at) {
        None => Err(Fault::At(at)),
        Some(byte) => {
            if byte == b'i' {
                return read_int(alloc, text, at);
            }
            read_real(alloc, text, at)
        }
    }
}

fn read_int(alloc: Global, text: &[u8], at: usize) -> Result<(AcSymbol, usize), Fault>
    ensures read { Reads text.now result (int_read (drop at text.now)) }
    ensures ahead { Ahead text.now at result }
{
    let (_, next) = read_fixed(text, at, b"int ")?;
    let head = Head::Int(Op::Mul);
    Ok((
        AcSymbol {
            head,
            sorts: List::new(alloc),
        },
        next,
    ))
}

fn read_real(alloc: Global, text: &[u8], at: usize) -> Result<(AcSymbol, usize), Fault>
    ensures read { Reads text.now result (real_read (drop at text.now)) }
    ensures ahead { Ahead text.now at result }
{
    let (_, next) = read_fixed(text, at, b"real ")?;
    let head = Head::Real(Op::Mul);
    Ok((
        AcSymbol {
            head,
            sorts: List::new(alloc),
        },
        next,
    ))
}
