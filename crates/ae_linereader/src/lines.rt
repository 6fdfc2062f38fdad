//! Clause lines, and the line that ends a proof.
ghost use Rattle.std.specs.Prelude.{◌≡◌, ◌<◌, ◌≤◌, ◌+◌, [], length, drop};
ghost use Rattle.ae_formulareader.specs.Formulas.{square_terms};
ghost use Rattle.ae_choices.specs.Choices.{picked};
ghost use Rattle.ae_linereader.specs.Lines.{axiom_read, block_line_read, bracketed_read, definition_read, exhaustion_read, fresh_read, instance_read, late_arms, line_all, line_arms, lines_code, lines_read, middle_arms, propagation_read, trichotomy_read};
ghost use Rattle.ae_prooftext.specs.Grammar.{formula_code};
ghost use Rattle.ae_readers.specs.Readers.{Reads, ReadsExactly, Ahead, close_of, list_read, most};
ghost use Rattle.ae_termreader.specs.Sorts.{sorts_read};

use crate::blocks::read_block;
use crate::lists::read_numbers;
use crate::steps::ProofStep;
use ae_base::lists::{Boxed, List};
use ae_choices::behind_word;
use ae_core::formulas::Formula;
use ae_core::proofs::ClauseLine;
use ae_core::terms::{Sort, Term};
use ae_formulareader::{read_clause, read_formula, read_square_terms};
use ae_readers::{Closing, Fault, farther, place, read_fixed, read_size};
use ae_termreader::{Tables, read_sorts, read_term};
use std::alloc::Global;

fn line_wrong(text: &[u8], at: usize) -> usize
    ensures behind { drop result text.now ≡ drop (most 0 line_all (drop at text.now)) (drop at text.now) }
    ensures within { result ≤ length text.now }
{
    let far = farther(text, at, b"hyp ", 0);
    let far = farther(text, at, b"goal\n", far);
    let far = farther(text, at, b"def ", far);
    let far = farther(text, at, b"inst ", far);
    let far = farther(text, at, b"fresh ", far);
    let far = farther(text, at, b"exh ", far);
    let far = farther(text, at, b"tri ", far);
    let far = farther(text, at, b"block\n", far);
    let far = farther(text, at, b"rup [", far);
    let far = farther(text, at, b"end\n", far);
    place(text, at, far)
}

// Sorts between square brackets, to the end of the line.
fn read_sort_list(
    alloc: Global,
    tables: &Tables<'_>,
    text: &[u8],
    at: usize,
) -> Result<(List<Sort>, usize), Fault>
    ensures read { Reads text.now result (bracketed_read (sorts_read tables.now.signature.now) (drop at text.now)) }
    ensures ahead { Ahead text.now at result }
{
    let (_, inside) = read_fixed(text, at, b"[")?;
    let (sorts, end) = read_sorts(alloc, tables, text, inside)?;
    let (_, next) = read_fixed(text, end, b"\n")?;
    Ok((sorts, next))
}

// Closed terms between square brackets, to the end of the line.
fn read_term_list(
    alloc: Global,
    tables: &Tables<'_>,
    text: &[u8],
    at: usize,
) -> Result<(List<Term>, usize), Fault>
    ensures read { Reads text.now result (bracketed_read (list_read 93 (square_terms tables.now.signature.now [])) (drop at text.now)) }
    ensures ahead { Ahead text.now at result }
{
    let env = List::new(alloc);
    let (_, inside) = read_fixed(text, at, b"[")?;
    let (terms, end) = read_square_terms(alloc, tables, env.as_slice(), text, inside)?;
    let (_, next) = read_fixed(text, end, b"\n")?;
    Ok((terms, next))
}

// A closed formula, held in a box.
fn read_boxed(
    alloc: Global,
    tables: &Tables<'_>,
    text: &[u8],
    at: usize,
    closing: Closing,
) -> Result<((Boxed<Formula>, u8), usize), Fault>
    ensures read { Reads text.now result ((formula_code tables.now.signature.now [] (close_of closing)).read (drop at text.now)) }
    ensures ahead { Ahead text.now at result }
{
    let env = List::new(alloc);
    let ((formula, close), next) = read_formula(alloc, tables, env.as_slice(), text, at, closing)?;
    match Boxed::new(alloc, formula) {
        Ok(inner) => Ok(((inner, close), next)),
        Err(_) => Err(Fault::Memory),
    }
}

// The rest of a line `tri`.
fn read_trichotomy(
    alloc: Global,
    tables: &Tables<'_>,
    text: &[u8],
    at: usize,
) -> Result<(ProofStep, usize), Fault>
    ensures read { Reads text.now result (trichotomy_read tables.now.signature.now (drop at text.now)) }
    ensures ahead { Ahead text.now at result }
{
    let env = List::new(alloc);
    let ((left, _), middle) = read_term(alloc, tables, env.as_slice(), text, at, Closing::Blank)?;
    let ((right, _), next) = read_term(alloc, tables, env.as_slice(), text, middle, Closing::Line)?;
    Ok((ProofStep::Line(ClauseLine::Tri { left, right }), next))
}

// The rest of a line `block`.
fn read_block_line(
    alloc: Global,
    tables: &Tables<'_>,
    text: &[u8],
    at: usize,
) -> Result<(ProofStep, usize), Fault>
    ensures read { Reads text.now result (block_line_read tables.now.signature.now (drop at text.now)) }
    ensures ahead { Ahead text.now at result }
{
    let (block, next) = read_block(alloc, tables, text, at)?;
    Ok((ProofStep::Line(ClauseLine::Block(block)), next))
}

// The rest of a line `rup`.
fn read_propagation(
    alloc: Global,
    tables: &Tables<'_>,
    text: &[u8],
    at: usize,
) -> Result<(ProofStep, usize), Fault>
    ensures read { Reads text.now result (propagation_read tables.now.signature.now (drop at text.now)) }
    ensures ahead { Ahead text.now at result }
{
    let (clause, middle) = read_clause(alloc, tables, text, at)?;
    let (hints, next) = read_numbers(alloc, text, middle)?;
    Ok((ProofStep::Line(ClauseLine::Rup { clause, hints }), next))
}

fn read_late_line(
    alloc: Global,
    tables: &Tables<'_>,
    text: &[u8],
    at: usize,
) -> Result<(ProofStep, usize), Fault>
    ensures read { Reads text.now result (picked line_all (late_arms tables.now.signature.now) (drop at text.now)) }
    ensures ahead { Ahead text.now at result }
{
    if let Some(behind) = behind_word(text, at, b"tri ") {
        return read_trichotomy(alloc, tables, text, behind);
    }
    if let Some(behind) = behind_word(text, at, b"block\n") {
        return read_block_line(alloc, tables, text, behind);
    }
    if let Some(behind) = behind_word(text, at, b"rup [") {
        return read_propagation(alloc, tables, text, behind);
    }
    if let Some(next) = behind_word(text, at, b"end\n") {
        return Ok((ProofStep::End, next));
    }
    Err(Fault::At(line_wrong(text, at)))
}

// The rest of a line `inst`.
fn read_instance(
    alloc: Global,
    tables: &Tables<'_>,
    text: &[u8],
    at: usize,
) -> Result<(ProofStep, usize), Fault>
    ensures read { Reads text.now result (instance_read tables.now.signature.now (drop at text.now)) }
    ensures ahead { Ahead text.now at result }
{
    let ((formula, _), open) = read_boxed(alloc, tables, text, at, Closing::Blank)?;
    let (terms, next) = read_term_list(alloc, tables, text, open)?;
    let formula = formula.into_inner();
    Ok((ProofStep::Line(ClauseLine::Inst { formula, terms }), next))
}

// The rest of a line `fresh`.
fn read_fresh(
    alloc: Global,
    tables: &Tables<'_>,
    text: &[u8],
    at: usize,
) -> Result<(ProofStep, usize), Fault>
    ensures read { Reads text.now result (fresh_read tables.now.signature.now (drop at text.now)) }
    ensures ahead { Ahead text.now at result }
{
    let ((formula, _), middle) = read_boxed(alloc, tables, text, at, Closing::Blank)?;
    let ((first, _), next) = read_size(text, middle, Closing::Line)?;
    let formula = formula.into_inner();
    Ok((ProofStep::Line(ClauseLine::Fresh { formula, first }), next))
}

// The rest of a line `exh`.
fn read_exhaustion(
    alloc: Global,
    tables: &Tables<'_>,
    text: &[u8],
    at: usize,
) -> Result<(ProofStep, usize), Fault>
    ensures read { Reads text.now result (exhaustion_read tables.now.signature.now (drop at text.now)) }
    ensures ahead { Ahead text.now at result }
{
    let env = List::new(alloc);
    let ((term, _), next) = read_term(alloc, tables, env.as_slice(), text, at, Closing::Line)?;
    Ok((ProofStep::Line(ClauseLine::Exh { term }), next))
}

fn read_middle_line(
    alloc: Global,
    tables: &Tables<'_>,
    text: &[u8],
    at: usize,
) -> Result<(ProofStep, usize), Fault>
    ensures read { Reads text.now result (picked line_all (middle_arms tables.now.signature.now) (drop at text.now)) }
    ensures ahead { Ahead text.now at result }
{
    if let Some(behind) = behind_word(text, at, b"inst ") {
        return read_instance(alloc, tables, text, behind);
    }
    if let Some(behind) = behind_word(text, at, b"fresh ") {
        return read_fresh(alloc, tables, text, behind);
    }
    if let Some(behind) = behind_word(text, at, b"exh ") {
        return read_exhaustion(alloc, tables, text, behind);
    }
    read_late_line(alloc, tables, text, at)
}

// The rest of a line `hyp`.
fn read_axiom(
    alloc: Global,
    tables: &Tables<'_>,
    text: &[u8],
    at: usize,
) -> Result<(ProofStep, usize), Fault>
    ensures read { Reads text.now result (axiom_read tables.now.signature.now (drop at text.now)) }
    ensures ahead { Ahead text.now at result }
{
    let ((axiom, _), open) = read_size(text, at, Closing::Blank)?;
    let (sorts, next) = read_sort_list(alloc, tables, text, open)?;
    Ok((ProofStep::Line(ClauseLine::Hyp { axiom, sorts }), next))
}

// The rest of a line `def`.
fn read_definition(
    alloc: Global,
    tables: &Tables<'_>,
    text: &[u8],
    at: usize,
) -> Result<(ProofStep, usize), Fault>
    ensures read { Reads text.now result (definition_read tables.now.signature.now (drop at text.now)) }
    ensures ahead { Ahead text.now at result }
{
    let ((row, _), middle) = read_size(text, at, Closing::Blank)?;
    let ((formula, _), next) = read_boxed(alloc, tables, text, middle, Closing::Line)?;
    let formula = formula.into_inner();
    Ok((ProofStep::Line(ClauseLine::Def { row, formula }), next))
}

fn read_line(
    alloc: Global,
    tables: &Tables<'_>,
    text: &[u8],
    at: usize,
) -> Result<(ProofStep, usize), Fault>
    ensures read { Reads text.now result (picked line_all (line_arms tables.now.signature.now) (drop at text.now)) }
    ensures ahead { Ahead text.now at result }
{
    if let Some(behind) = behind_word(text, at, b"hyp ") {
        return read_axiom(alloc, tables, text, behind);
    }
    if let Some(next) = behind_word(text, at, b"goal\n") {
        return Ok((ProofStep::Line(ClauseLine::Goal), next));
    }
    if let Some(behind) = behind_word(text, at, b"def ") {
        return read_definition(alloc, tables, text, behind);
    }
    read_middle_line(alloc, tables, text, at)
}

fn read_line_list(
    alloc: Global,
    tables: &Tables<'_>,
    text: &[u8],
    from: usize,
) -> Result<(List<ClauseLine>, usize), Fault>
    ensures read { Reads text.now result (lines_read tables.now.signature.now (drop from text.now)) }
    ensures ahead { Ahead text.now from result }
{
    let mut lines = List::new(alloc);
    let mut at = from;
    'lines: loop {
        let (step, next) = match read_line(alloc, tables, text, at) {
            Ok(found) => found,
            Err(fault) => return Err(fault),
        };
        at = next;
        match step {
            ProofStep::Line(line) => {
                if let Err(_) = lines.push(line) {
                    return Err(Fault::Memory);
                }
            }
            ProofStep::End => return Ok((lines, at)),
        }
    }
}

/// The clause lines of a proof up to its line `end`, from the place behind the lines that tell its version.
pub fn read_lines(
    alloc: Global,
    tables: &Tables<'_>,
    text: &[u8],
    at: usize,
) -> Result<(List<ClauseLine>, usize), Fault>
    ensures read { Reads text.now result ((lines_code tables.now.signature.now).read (drop at text.now)) }
    ensures exact { ReadsExactly (lines_code tables.now.signature.now) text.now at result }
    ensures ahead { Ahead text.now at result }
{
    read_line_list(alloc, tables, text, at)
}
