//! Formulas.
ghost use Rattle.std.specs.Prelude.{◌≡◌, ◌<◌, ◌≤◌, ◌+◌, ◌++◌, [], length, drop, get_or, true, false, IfOk, IfErr};
ghost use Rattle.ae_readers.specs.declared.fault.Fault.TheVariants.{Memory};
ghost use Rattle.ae_prooftext.specs.FormulaTexts.{kind_of};
ghost use Rattle.ae_prooftext.specs.Grammar.{formula_code};
ghost use Rattle.ae_prooftext.specs.Words.{symbol_of};
ghost use Rattle.ae_formulareader.specs.Formulas.{arm_read, worded_read, bracket_read, leaf_read, formula_turn, kind_is, negation_read, positive_code, quant_read, two_formulas_read, two_terms_read, words_at};
ghost use Rattle.ae_readers.specs.Readers.{Reads, ReadsExactly, Ahead, close_of};

use crate::triggers::read_triggers;
use crate::words::{
    Opening, leaf_at, opening_at, opening_words, read_leaf_word, read_opening, symbol_named,
    word_among,
};
use ae_base::lists::{Boxed, List};
use ae_core::formulas::{Formula, Quant};
use ae_core::sorts::inner_sorts;
use ae_core::terms::{Sort, Term};
use ae_prooftext::has_variables;
use ae_readers::{Closing, Fault, byte_at, read_closing, read_fixed};
use ae_termreader::{Tables, read_arguments, read_sorts, read_term};
use std::alloc::Global;

/// The formula that begins at a place, under variables of the sorts `env`, and the byte that closes it.
#[cycle(read_formula)]
pub fn read_formula(
    alloc: Global,
    tables: &Tables<'_>,
    env: &[Sort],
    text: &[u8],
    at: usize,
    closing: Closing,
) -> Result<((Formula, u8), usize), Fault>
    ensures read { Reads text.now result ((formula_code tables.now.signature.now env.now (close_of closing)).read (drop at text.now)) }
    ensures exact { ReadsExactly (formula_code tables.now.signature.now env.now (close_of closing)) text.now at result }
    ensures ahead { Ahead text.now at result }
{
    read_by_byte(alloc, tables, env, text, at, closing, true)
}

/// The same of a closed formula that is no negation.
pub fn read_positive(
    alloc: Global,
    tables: &Tables<'_>,
    text: &[u8],
    at: usize,
    closing: Closing,
) -> Result<((Formula, u8), usize), Fault>
    ensures read { Reads text.now result ((positive_code tables.now.signature.now (close_of closing)).read (drop at text.now)) }
    ensures exact { ReadsExactly (positive_code tables.now.signature.now (close_of closing)) text.now at result }
    ensures ahead { Ahead text.now at result }
{
    read_closed(alloc, tables, text, at, closing)
}

fn read_closed(
    alloc: Global,
    tables: &Tables<'_>,
    text: &[u8],
    at: usize,
    closing: Closing,
) -> Result<((Formula, u8), usize), Fault>
    ensures read { Reads text.now result (formula_turn tables.now.signature.now [] (close_of closing) false (drop at text.now)) }
    ensures ahead { Ahead text.now at result }
{
    let env = List::new(alloc);
    read_by_byte(alloc, tables, env.as_slice(), text, at, closing, false)
}

#[cycle(read_formula)]
fn read_by_byte(
    alloc: Global,
    tables: &Tables<'_>,
    env: &[Sort],
    text: &[u8],
    at: usize,
    closing: Closing,
    negations: bool,
) -> Result<((Formula, u8), usize), Fault>
    ensures read { Reads text.now result (formula_turn tables.now.signature.now env.now (close_of closing) negations (drop at text.now)) }
    ensures ahead { Ahead text.now at result }
{
    match byte_at(text, at) {
        None => Err(Fault::At(at)),
        Some(byte) => {
            if byte == b'(' {
                return read_bracket(alloc, tables, env, text, at + 1, closing, negations);
            }
            read_leaf(alloc, tables, text, at, closing)
        }
    }
}

fn read_leaf(
    alloc: Global,
    tables: &Tables<'_>,
    text: &[u8],
    at: usize,
    closing: Closing,
) -> Result<((Formula, u8), usize), Fault>
    ensures read { Reads text.now result (leaf_read tables.now.signature.now (close_of closing) (drop at text.now)) }
    ensures ahead { Ahead text.now at result }
{
    let ((place, close), next) = read_leaf_word(text, at, &tables.proposition_words, closing)?;
    Ok(((leaf_at(alloc, tables, place), close), next))
}

#[cycle(read_formula)]
fn read_bracket(
    alloc: Global,
    tables: &Tables<'_>,
    env: &[Sort],
    text: &[u8],
    at: usize,
    closing: Closing,
    negations: bool,
) -> Result<((Formula, u8), usize), Fault>
    ensures read { Reads text.now result (bracket_read tables.now.signature.now env.now (close_of closing) negations (drop at text.now)) }
    ensures ahead { Ahead text.now at result }
{
    let ((place, _), behind) = read_opening(text, at, opening_words(tables, negations))?;
    let (formula, end) = read_worded(alloc, tables, env, text, behind, negations, place)?;
    let (close, next) = read_closing(text, end, closing)?;
    Ok(((formula, close), next))
}

#[cycle(read_formula)]
fn read_worded(
    alloc: Global,
    tables: &Tables<'_>,
    env: &[Sort],
    text: &[u8],
    at: usize,
    negations: bool,
    place: usize,
) -> Result<(Formula, usize), Fault>
    ensures read { Reads text.now result (worded_read tables.now.signature.now env.now (get_or (words_at tables.now.signature.now negations) place []) (drop at text.now)) }
    ensures ahead { Ahead text.now at result }
{
    let opening = opening_at(tables, negations, place);
    let word = word_among(opening_words(tables, negations).words.as_slice(), place);
    read_opened(alloc, tables, env, text, at, opening, word)
}

#[cycle(read_formula)]
fn read_opened(
    alloc: Global,
    tables: &Tables<'_>,
    env: &[Sort],
    text: &[u8],
    at: usize,
    opening: Opening,
    word: &[u8],
) -> Result<(Formula, usize), Fault>
    ensures read { Reads text.now result (arm_read tables.now.signature.now (kind_is opening) (symbol_of tables.now.signature.now word.now) env.now (drop at text.now)) }
    ensures ahead { Ahead text.now at result }
{
    match opening {
        Opening::Eq => {
            let ((left, right), next) = read_two_terms(alloc, tables, env, text, at)?;
            Ok((Formula::Eq { left, right }, next))
        }
        Opening::Lt => {
            let ((left, right), next) = read_two_terms(alloc, tables, env, text, at)?;
            Ok((Formula::Lt { left, right }, next))
        }
        Opening::Le => {
            let ((left, right), next) = read_two_terms(alloc, tables, env, text, at)?;
            Ok((Formula::Le { left, right }, next))
        }
        Opening::Not => read_negation(alloc, tables, env, text, at),
        Opening::And => {
            let ((left, right), next) = read_two_formulas(alloc, tables, env, text, at)?;
            Ok((Formula::And(left, right), next))
        }
        Opening::Or => {
            let ((left, right), next) = read_two_formulas(alloc, tables, env, text, at)?;
            Ok((Formula::Or(left, right), next))
        }
        Opening::Xor => {
            let ((left, right), next) = read_two_formulas(alloc, tables, env, text, at)?;
            Ok((Formula::Xor(left, right), next))
        }
        Opening::Iff => {
            let ((left, right), next) = read_two_formulas(alloc, tables, env, text, at)?;
            Ok((Formula::Iff(left, right), next))
        }
        Opening::All => {
            let (quant, next) = read_quant(alloc, tables, env, text, at)?;
            Ok((Formula::All(quant), next))
        }
        Opening::Ex => {
            let (quant, next) = read_quant(alloc, tables, env, text, at)?;
            Ok((Formula::Ex(quant), next))
        }
        Opening::Symbol => {
            let symbol = symbol_named(tables, word);
            let sorted = has_variables(tables.signature, symbol);
            let ((sorts, args), next) = read_arguments(alloc, tables, env, text, at, sorted)?;
            Ok((
                Formula::Pred {
                    symbol,
                    sorts,
                    args,
                },
                next,
            ))
        }
    }
}

fn read_two_terms(
    alloc: Global,
    tables: &Tables<'_>,
    env: &[Sort],
    text: &[u8],
    at: usize,
) -> Result<((Term, Term), usize), Fault>
    ensures read { Reads text.now result (two_terms_read tables.now.signature.now env.now (drop at text.now)) }
    ensures ahead { Ahead text.now at result }
{
    let ((left, _), behind) = read_term(alloc, tables, env, text, at, Closing::Blank)?;
    let ((right, _), next) = read_term(alloc, tables, env, text, behind, Closing::Bracket)?;
    Ok(((left, right), next))
}

#[cycle(read_formula)]
fn read_negation(
    alloc: Global,
    tables: &Tables<'_>,
    env: &[Sort],
    text: &[u8],
    at: usize,
) -> Result<(Formula, usize), Fault>
    ensures read { Reads text.now result (negation_read tables.now.signature.now env.now (drop at text.now)) }
    ensures ahead { Ahead text.now at result }
{
    let ((formula, _), next) = read_formula(alloc, tables, env, text, at, Closing::Bracket)?;
    match Boxed::new(alloc, formula) {
        Ok(inner) => Ok((Formula::Not(inner), next)),
        Err(_) => Err(Fault::Memory),
    }
}

#[cycle(read_formula)]
fn read_boxed(
    alloc: Global,
    tables: &Tables<'_>,
    env: &[Sort],
    text: &[u8],
    at: usize,
    closing: Closing,
) -> Result<((Boxed<Formula>, u8), usize), Fault>
    ensures read { Reads text.now result ((formula_code tables.now.signature.now env.now (close_of closing)).read (drop at text.now)) }
    ensures ahead { Ahead text.now at result }
{
    let ((formula, close), next) = read_formula(alloc, tables, env, text, at, closing)?;
    match Boxed::new(alloc, formula) {
        Ok(inner) => Ok(((inner, close), next)),
        Err(_) => Err(Fault::Memory),
    }
}

#[cycle(read_formula)]
fn read_two_formulas(
    alloc: Global,
    tables: &Tables<'_>,
    env: &[Sort],
    text: &[u8],
    at: usize,
) -> Result<((Boxed<Formula>, Boxed<Formula>), usize), Fault>
    ensures read { Reads text.now result (two_formulas_read tables.now.signature.now env.now (drop at text.now)) }
    ensures ahead { Ahead text.now at result }
{
    let ((left, _), behind) = read_boxed(alloc, tables, env, text, at, Closing::Blank)?;
    let ((right, _), next) = read_boxed(alloc, tables, env, text, behind, Closing::Bracket)?;
    Ok(((left, right), next))
}

// The sorts of the variables with those of one more block.
fn under(alloc: Global, env: &[Sort], more: &[Sort]) -> Result<List<Sort>, Fault>
    ensures sorts { IfOk result (λ s. s ≡ env.now ++ more.now) }
    ensures memory { IfErr result (λ f. f ≡ Memory) }
{
    match inner_sorts(alloc, env, more) {
        Ok(inner) => Ok(inner),
        Err(_) => Err(Fault::Memory),
    }
}

#[cycle(read_formula)]
fn read_quant(
    alloc: Global,
    tables: &Tables<'_>,
    env: &[Sort],
    text: &[u8],
    at: usize,
) -> Result<(Quant, usize), Fault>
    ensures read { Reads text.now result (quant_read tables.now.signature.now env.now (drop at text.now)) }
    ensures ahead { Ahead text.now at result }
{
    let (_, open) = read_fixed(text, at, b"[")?;
    let (sorts, end) = read_sorts(alloc, tables, text, open)?;
    let (_, second) = read_fixed(text, end, b" [")?;
    let inner = under(alloc, env, sorts.as_slice())?;
    let (triggers, behind) = read_triggers(alloc, tables, inner.as_slice(), text, second)?;
    let (_, body) = read_fixed(text, behind, b" ")?;
    let ((body, _), next) = read_boxed(
        alloc,
        tables,
        inner.as_slice(),
        text,
        body,
        Closing::Bracket,
    )?;
    Ok((
        Quant {
            sorts,
            triggers,
            body,
        },
        next,
    ))
}
