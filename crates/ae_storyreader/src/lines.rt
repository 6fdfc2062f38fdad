//! The lines of journals.
ghost use Rattle.std.specs.Prelude.{◌≡◌, ◌≤◌, [], length, drop};
ghost use Rattle.ae_choices.specs.Choices.{picked};
ghost use Rattle.ae_prooftext.specs.Grammar.{formula_code};
ghost use Rattle.ae_readers.specs.Readers.{Reads, Ahead, close_of, most};
ghost use Rattle.ae_storyreader.specs.Lines.{applied_read, form_read, last_arms, late_arms, learnt_read, line_read, line_words, middle_arms, solved_read, typed_read};

use ae_base::lists::{Boxed, List};
use ae_choices::behind_word;
use ae_core::formulas::{Formula, Lit};
use ae_core::terms::{Sort, Term};
use ae_formulareader::{read_clause, read_formula, read_literal, read_square_terms};
use ae_journal::lines::{Line, Oriented};
use ae_num::forms::{Lin, Value};
use ae_readers::{Closing, Fault, farther, place, read_fixed, read_size};
use ae_rulereader::{AcTables, read_sides};
use ae_termreader::{Tables, read_sorts};
use ae_valuereader::{read_form, read_value};
use std::alloc::Global;

// A name and its value.
fn read_solved(alloc: Global, text: &[u8], at: usize) -> Result<((usize, Value), usize), Fault>
    ensures read { Reads text.now result (solved_read (drop at text.now)) }
    ensures ahead { Ahead text.now at result }
{
    let ((name, _), behind) = read_size(text, at, Closing::Blank)?;
    let ((value, _), next) = read_value(alloc, text, behind, Closing::Line)?;
    Ok(((name, value), next))
}

/// A linear form and the end of its line.
pub fn read_form_line(alloc: Global, text: &[u8], at: usize) -> Result<(Lin, usize), Fault>
    ensures read { Reads text.now result (form_read (drop at text.now)) }
    ensures ahead { Ahead text.now at result }
{
    let (form, behind) = read_form(alloc, text, at)?;
    let (_, next) = read_fixed(text, behind, b"\n")?;
    Ok((form, next))
}

// A clause behind its bracket.
fn read_learnt(
    alloc: Global,
    tables: &Tables<'_>,
    text: &[u8],
    at: usize,
) -> Result<(List<Lit>, usize), Fault>
    ensures read { Reads text.now result (learnt_read tables.now.signature.now (drop at text.now)) }
    ensures ahead { Ahead text.now at result }
{
    let (clause, behind) = read_clause(alloc, tables, text, at)?;
    let (_, next) = read_fixed(text, behind, b"\n")?;
    Ok((clause, next))
}

// An axiom and the sorts for its type variables.
fn read_typed(
    alloc: Global,
    tables: &Tables<'_>,
    text: &[u8],
    at: usize,
) -> Result<((usize, List<Sort>), usize), Fault>
    ensures read { Reads text.now result (typed_read tables.now.signature.now (drop at text.now)) }
    ensures ahead { Ahead text.now at result }
{
    let ((axiom, _), behind) = read_size(text, at, Closing::Blank)?;
    let (_, open) = read_fixed(text, behind, b"[")?;
    let (sorts, end) = read_sorts(alloc, tables, text, open)?;
    let (_, next) = read_fixed(text, end, b"\n")?;
    Ok(((axiom, sorts), next))
}

// A closed formula, held in a box.
fn read_boxed(
    alloc: Global,
    tables: &Tables<'_>,
    text: &[u8],
    at: usize,
    closing: Closing,
) -> Result<((Boxed<Formula>, u8), usize), Fault>
    ensures read { Reads text.now result ((formula_code tables.now.signature.now [] (close_of closing)).read (drop at text.now)) }
    ensures ahead { Ahead text.now at result }
{
    let ((formula, close), next) = read_formula(alloc, tables, &[], text, at, closing)?;
    match Boxed::new(alloc, formula) {
        Ok(inner) => Ok(((inner, close), next)),
        Err(_) => Err(Fault::Memory),
    }
}

// A quantified formula and the terms for its variables.
fn read_applied(
    alloc: Global,
    tables: &Tables<'_>,
    text: &[u8],
    at: usize,
) -> Result<((Formula, List<Term>), usize), Fault>
    ensures read { Reads text.now result (applied_read tables.now.signature.now (drop at text.now)) }
    ensures ahead { Ahead text.now at result }
{
    let ((formula, _), behind) = read_boxed(alloc, tables, text, at, Closing::Blank)?;
    let (_, open) = read_fixed(text, behind, b"[")?;
    let (terms, end) = read_square_terms(alloc, tables, &[], text, open)?;
    let (_, next) = read_fixed(text, end, b"\n")?;
    let formula = formula.into_inner();
    Ok(((formula, terms), next))
}

// Where no word of a line goes on.
fn line_wrong(text: &[u8], at: usize) -> usize
    ensures behind { drop result text.now ≡ drop (most 0 line_words (drop at text.now)) (drop at text.now) }
    ensures within { result ≤ length text.now }
{
    let far = farther(text, at, b"decide ", 0);
    let far = farther(text, at, b"solve ", far);
    let far = farther(text, at, b"rule ", far);
    let far = farther(text, at, b"drop solve ", far);
    let far = farther(text, at, b"drop rule ", far);
    let far = farther(text, at, b"pair ", far);
    let far = farther(text, at, b"learn [", far);
    let far = farther(text, at, b"instance type ", far);
    let far = farther(text, at, b"instance term ", far);
    let far = farther(text, at, b"combine ge ", far);
    let far = farther(text, at, b"combine gt ", far);
    let far = farther(text, at, b"back ", far);
    let far = farther(text, at, b"end\n", far);
    place(text, at, far)
}

fn read_last_line(
    alloc: Global,
    tables: &AcTables<'_>,
    text: &[u8],
    at: usize,
) -> Result<(Option<Line>, usize), Fault>
    ensures read { Reads text.now result (picked line_words (last_arms tables.now.terms.signature.now) (drop at text.now)) }
    ensures ahead { Ahead text.now at result }
{
    if let Some(behind) = behind_word(text, at, b"combine ge ") {
        let (row, next) = read_form_line(alloc, text, behind)?;
        let strict = false;
        return Ok((Some(Line::Combine { strict, row }), next));
    }
    if let Some(behind) = behind_word(text, at, b"combine gt ") {
        let (row, next) = read_form_line(alloc, text, behind)?;
        let strict = true;
        return Ok((Some(Line::Combine { strict, row }), next));
    }
    if let Some(behind) = behind_word(text, at, b"back ") {
        let ((level, _), next) = read_size(text, behind, Closing::Line)?;
        return Ok((Some(Line::Back(level)), next));
    }
    if let Some(next) = behind_word(text, at, b"end\n") {
        return Ok((None, next));
    }
    Err(Fault::At(line_wrong(text, at)))
}

fn read_late_line(
    alloc: Global,
    tables: &AcTables<'_>,
    text: &[u8],
    at: usize,
) -> Result<(Option<Line>, usize), Fault>
    ensures read { Reads text.now result (picked line_words (late_arms tables.now.terms.signature.now) (drop at text.now)) }
    ensures ahead { Ahead text.now at result }
{
    if let Some(behind) = behind_word(text, at, b"learn [") {
        let (clause, next) = read_learnt(alloc, &tables.terms, text, behind)?;
        return Ok((Some(Line::Learn(clause)), next));
    }
    if let Some(behind) = behind_word(text, at, b"instance type ") {
        let ((axiom, sorts), next) = read_typed(alloc, &tables.terms, text, behind)?;
        return Ok((Some(Line::TypeInstance { axiom, sorts }), next));
    }
    if let Some(behind) = behind_word(text, at, b"instance term ") {
        let ((formula, terms), next) = read_applied(alloc, &tables.terms, text, behind)?;
        return Ok((Some(Line::TermInstance { formula, terms }), next));
    }
    read_last_line(alloc, tables, text, at)
}

fn read_middle_line(
    alloc: Global,
    tables: &AcTables<'_>,
    text: &[u8],
    at: usize,
) -> Result<(Option<Line>, usize), Fault>
    ensures read { Reads text.now result (picked line_words (middle_arms tables.now.terms.signature.now) (drop at text.now)) }
    ensures ahead { Ahead text.now at result }
{
    if let Some(behind) = behind_word(text, at, b"drop solve ") {
        let ((name, value), next) = read_solved(alloc, text, behind)?;
        return Ok((Some(Line::Drop(Oriented::Named { name, value })), next));
    }
    if let Some(behind) = behind_word(text, at, b"drop rule ") {
        let ((symbol, (left, right)), next) = read_sides(alloc, tables, text, behind)?;
        let rule = Oriented::Rule {
            symbol,
            left,
            right,
        };
        return Ok((Some(Line::Drop(rule)), next));
    }
    if let Some(behind) = behind_word(text, at, b"pair ") {
        let ((symbol, (first, second)), next) = read_sides(alloc, tables, text, behind)?;
        let pair = Line::Pair {
            symbol,
            first,
            second,
        };
        return Ok((Some(pair), next));
    }
    read_late_line(alloc, tables, text, at)
}

/// The line that begins at a place, or none for the end of the journal.
pub fn read_line(
    alloc: Global,
    tables: &AcTables<'_>,
    text: &[u8],
    at: usize,
) -> Result<(Option<Line>, usize), Fault>
    ensures read { Reads text.now result (line_read tables.now.terms.signature.now (drop at text.now)) }
    ensures ahead { Ahead text.now at result }
{
    if let Some(behind) = behind_word(text, at, b"decide ") {
        let ((literal, _), next) = read_literal(alloc, &tables.terms, text, behind, Closing::Line)?;
        return Ok((Some(Line::Decide(literal)), next));
    }
    if let Some(behind) = behind_word(text, at, b"solve ") {
        let ((name, value), next) = read_solved(alloc, text, behind)?;
        return Ok((Some(Line::Orient(Oriented::Named { name, value })), next));
    }
    if let Some(behind) = behind_word(text, at, b"rule ") {
        let ((symbol, (left, right)), next) = read_sides(alloc, tables, text, behind)?;
        let rule = Oriented::Rule {
            symbol,
            left,
            right,
        };
        return Ok((Some(Line::Orient(rule)), next));
    }
    read_middle_line(alloc, tables, text, at)
}
