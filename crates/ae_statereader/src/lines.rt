//! The lines of literals, names and values.
ghost use Rattle.std.specs.Prelude.{◌≡◌, drop};
ghost use Rattle.ae_readers.specs.Readers.{Reads, Ahead};
ghost use Rattle.ae_statereader.specs.Lines.{HasNumber};
ghost use Rattle.ae_statereader.specs.Items.{exact_read, exact_span, literal_read, name_item, value_item};

use ae_core::formulas::Lit;
use ae_core::terms::Term;
use ae_formulareader::read_literal;
use ae_num::forms::Value;
use ae_readers::{Closing, Fault, read_fixed};
use ae_termreader::{Tables, read_term};
use ae_valuereader::{Span, read_value, read_within};
use std::alloc::Global;

/// The greatest number of 64 bits.
const TOP: usize = 18446744073709551615;

fn only(number: usize) -> Span
    ensures { result ≡ exact_span number }
{
    Span {
        low: number,
        high: number,
        last: 32,
        may_end: true,
        greatest: TOP,
    }
}

// The number of a line, which is this one, and the blank behind it.
fn read_exactly(text: &[u8], at: usize, number: usize) -> Result<((usize, u8), usize), Fault>
    ensures read { Reads text.now result (exact_read number (drop at text.now)) }
    ensures ahead { Ahead text.now at result }
{
    read_within(text, at, only(number))
}

/// The line of a literal that stands: `lit ` and the literal.
pub fn read_literal_line(
    alloc: Global,
    tables: &Tables<'_>,
    text: &[u8],
    at: usize,
) -> Result<(Lit, usize), Fault>
    ensures read { Reads text.now result (literal_read tables.now.signature.now (drop at text.now)) }
    ensures ahead { Ahead text.now at result }
{
    let (_, behind) = read_fixed(text, at, b"lit ")?;
    let ((literal, _), next) = read_literal(alloc, tables, text, behind, Closing::Line)?;
    Ok((literal, next))
}

/// The line of a name: `name `, its number and its term.
pub fn read_name_line(
    alloc: Global,
    tables: &Tables<'_>,
    text: &[u8],
    at: usize,
    number: usize,
) -> Result<(Term, usize), Fault>
    ensures read { Reads text.now result (name_item tables.now.signature.now number (drop at text.now)) }
    ensures numbered { HasNumber number }
    ensures ahead { Ahead text.now at result }
{
    let (_, behind) = read_fixed(text, at, b"name ")?;
    let (_, open) = read_exactly(text, behind, number)?;
    let ((term, _), next) = read_term(alloc, tables, &[], text, open, Closing::Line)?;
    Ok((term, next))
}

/// The line of a value: `value `, the number of its name, and the value.
pub fn read_value_line(
    alloc: Global,
    text: &[u8],
    at: usize,
    number: usize,
) -> Result<(Value, usize), Fault>
    ensures read { Reads text.now result (value_item number (drop at text.now)) }
    ensures numbered { HasNumber number }
    ensures ahead { Ahead text.now at result }
{
    let (_, behind) = read_fixed(text, at, b"value ")?;
    let (_, open) = read_exactly(text, behind, number)?;
    let ((value, _), next) = read_value(alloc, text, open, Closing::Line)?;
    Ok((value, next))
}
