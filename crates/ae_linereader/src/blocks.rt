//! Blocks: hypotheses, derived lines and the ending.
ghost use Rattle.std.specs.Prelude.{◌≡◌, ◌<◌, ◌≤◌, ◌+◌, [], length, drop};
ghost use Rattle.ae_codes.specs.Closers.{by_blank};
ghost use Rattle.ae_prooftext.specs.Grammar.{block_code, term_code};
ghost use Rattle.ae_choices.specs.Choices.{picked};
ghost use Rattle.ae_linereader.specs.Lines.{block_lines_code, block_read, block_step_read, derivation_code, derived_all, derived_arms, derived_code, derived_step_read, hypothesis_read, sides_read};
ghost use Rattle.ae_readers.specs.Readers.{Reads, ReadsExactly, Ahead, most};

use crate::rules::{read_ending, read_eq_rule, read_le_rule, read_lt_rule};
use crate::steps::{BlockStep, DerivedStep};
use ae_base::lists::{Boxed, List};
use ae_choices::behind_word;
use ae_core::formulas::Lit;
use ae_core::proofs::{Block, Deriv, Ending, EqLine};
use ae_core::terms::Term;
use ae_formulareader::read_literal;
use ae_readers::{Closing, Fault, byte_at, farther, place, read_fixed};
use ae_termreader::{Tables, read_term};
use std::alloc::Global;

// A closed term with a blank behind it, held in a box.
fn read_side(
    alloc: Global,
    tables: &Tables<'_>,
    text: &[u8],
    at: usize,
) -> Result<((Boxed<Term>, u8), usize), Fault>
    ensures read { Reads text.now result ((term_code tables.now.signature.now [] by_blank).read (drop at text.now)) }
    ensures ahead { Ahead text.now at result }
{
    let env = List::new(alloc);
    let ((term, close), next) = read_term(alloc, tables, env.as_slice(), text, at, Closing::Blank)?;
    match Boxed::new(alloc, term) {
        Ok(inner) => Ok(((inner, close), next)),
        Err(_) => Err(Fault::Memory),
    }
}

// Two closed terms, a blank behind each.
fn read_sides(
    alloc: Global,
    tables: &Tables<'_>,
    text: &[u8],
    at: usize,
) -> Result<((Boxed<Term>, Boxed<Term>), usize), Fault>
    ensures read { Reads text.now result (sides_read tables.now.signature.now (drop at text.now)) }
    ensures ahead { Ahead text.now at result }
{
    let ((left, _), behind) = read_side(alloc, tables, text, at)?;
    let ((right, _), next) = read_side(alloc, tables, text, behind)?;
    Ok(((left, right), next))
}

fn derived_wrong(text: &[u8], at: usize) -> usize
    ensures behind { drop result text.now ≡ drop (most 0 derived_all (drop at text.now)) (drop at text.now) }
    ensures within { result ≤ length text.now }
{
    let far = farther(text, at, b"eq ", 0);
    let far = farther(text, at, b"le ", far);
    let far = farther(text, at, b"lt ", far);
    place(text, at, far)
}

fn read_worded_line(
    alloc: Global,
    tables: &Tables<'_>,
    text: &[u8],
    at: usize,
) -> Result<(EqLine, usize), Fault>
    ensures read { Reads text.now result (picked derived_all (derived_arms tables.now.signature.now) (drop at text.now)) }
    ensures ahead { Ahead text.now at result }
{
    if let Some(behind) = behind_word(text, at, b"eq ") {
        let ((left, right), middle) = read_sides(alloc, tables, text, behind)?;
        let (line, next) = read_eq_rule(alloc, text, middle, left, right)?;
        return Ok((line, next));
    }
    if let Some(behind) = behind_word(text, at, b"le ") {
        let ((left, right), middle) = read_sides(alloc, tables, text, behind)?;
        let (line, next) = read_le_rule(alloc, text, middle, left, right)?;
        return Ok((line, next));
    }
    if let Some(behind) = behind_word(text, at, b"lt ") {
        let ((left, right), middle) = read_sides(alloc, tables, text, behind)?;
        let (line, next) = read_lt_rule(alloc, text, middle, left, right)?;
        return Ok((line, next));
    }
    Err(Fault::At(derived_wrong(text, at)))
}

fn read_derived(
    alloc: Global,
    tables: &Tables<'_>,
    text: &[u8],
    at: usize,
) -> Result<(EqLine, usize), Fault>
    ensures read { Reads text.now result ((derived_code tables.now.signature.now).read (drop at text.now)) }
    ensures ahead { Ahead text.now at result }
{
    read_worded_line(alloc, tables, text, at)
}

fn read_derived_step(
    alloc: Global,
    tables: &Tables<'_>,
    text: &[u8],
    at: usize,
) -> Result<(DerivedStep, usize), Fault>
    ensures read { Reads text.now result (derived_step_read tables.now.signature.now (drop at text.now)) }
    ensures ahead { Ahead text.now at result }
{
    match byte_at(text, at) {
        None => Err(Fault::At(at)),
        Some(byte) => {
            if byte == b'e' || byte == b'l' {
                let (line, next) = read_derived(alloc, tables, text, at)?;
                return Ok((DerivedStep::Line(line), next));
            }
            let (ending, next) = read_ending(alloc, text, at)?;
            Ok((DerivedStep::End(ending), next))
        }
    }
}

// Derived lines and the ending.
fn read_derivation(
    alloc: Global,
    tables: &Tables<'_>,
    text: &[u8],
    from: usize,
) -> Result<((List<EqLine>, Ending), usize), Fault>
    ensures read { Reads text.now result ((derivation_code tables.now.signature.now).read (drop from text.now)) }
    ensures ahead { Ahead text.now from result }
{
    let mut lines = List::new(alloc);
    let mut at = from;
    'lines: loop {
        let (step, next) = match read_derived_step(alloc, tables, text, at) {
            Ok(found) => found,
            Err(fault) => return Err(fault),
        };
        at = next;
        match step {
            DerivedStep::Line(line) => {
                if let Err(_) = lines.push(line) {
                    return Err(Fault::Memory);
                }
            }
            DerivedStep::End(ending) => return Ok(((lines, ending), at)),
        }
    }
}

fn read_hypothesis(
    alloc: Global,
    tables: &Tables<'_>,
    text: &[u8],
    at: usize,
) -> Result<(Lit, usize), Fault>
    ensures read { Reads text.now result (hypothesis_read tables.now.signature.now (drop at text.now)) }
    ensures ahead { Ahead text.now at result }
{
    let (_, behind) = read_fixed(text, at, b"h ")?;
    let ((literal, _), next) = read_literal(alloc, tables, text, behind, Closing::Line)?;
    Ok((literal, next))
}

fn read_block_step(
    alloc: Global,
    tables: &Tables<'_>,
    text: &[u8],
    at: usize,
) -> Result<(BlockStep, usize), Fault>
    ensures read { Reads text.now result (block_step_read tables.now.signature.now (drop at text.now)) }
    ensures ahead { Ahead text.now at result }
{
    match byte_at(text, at) {
        None => Err(Fault::At(at)),
        Some(byte) => {
            if byte == b'h' {
                let (literal, next) = read_hypothesis(alloc, tables, text, at)?;
                return Ok((BlockStep::Hypothesis(literal), next));
            }
            let ((lines, ending), next) = read_derivation(alloc, tables, text, at)?;
            Ok((BlockStep::Derivation(lines, ending), next))
        }
    }
}

fn read_block_lines(
    alloc: Global,
    tables: &Tables<'_>,
    text: &[u8],
    from: usize,
) -> Result<((List<Lit>, (List<EqLine>, Ending)), usize), Fault>
    ensures read { Reads text.now result ((block_lines_code tables.now.signature.now).read (drop from text.now)) }
    ensures ahead { Ahead text.now from result }
{
    let mut hyps = List::new(alloc);
    let mut at = from;
    'lines: loop {
        let (step, next) = match read_block_step(alloc, tables, text, at) {
            Ok(found) => found,
            Err(fault) => return Err(fault),
        };
        at = next;
        match step {
            BlockStep::Hypothesis(literal) => {
                if let Err(_) = hyps.push(literal) {
                    return Err(Fault::Memory);
                }
            }
            BlockStep::Derivation(lines, ending) => return Ok(((hyps, (lines, ending)), at)),
        }
    }
}

fn read_parts(
    alloc: Global,
    tables: &Tables<'_>,
    text: &[u8],
    at: usize,
) -> Result<(Block, usize), Fault>
    ensures read { Reads text.now result (block_read tables.now.signature.now (drop at text.now)) }
    ensures ahead { Ahead text.now at result }
{
    let ((hyps, (lines, ending)), next) = read_block_lines(alloc, tables, text, at)?;
    let deriv = Deriv { hyps, lines };
    Ok((Block { deriv, ending }, next))
}

/// The hypotheses, derived lines and ending of a block, behind its line `block`.
pub fn read_block(
    alloc: Global,
    tables: &Tables<'_>,
    text: &[u8],
    at: usize,
) -> Result<(Block, usize), Fault>
    ensures read { Reads text.now result ((block_code tables.now.signature.now).read (drop at text.now)) }
    ensures exact { ReadsExactly (block_code tables.now.signature.now) text.now at result }
    ensures ahead { Ahead text.now at result }
{
    read_parts(alloc, tables, text, at)
}
