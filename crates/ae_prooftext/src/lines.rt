//! Blocks and the lines of proofs.
ghost use Rattle.std.specs.Prelude.{◌≡◌, ◌++◌, codes, decimal, OnOk};
ghost use Rattle.std.specs.List.{flat_map};
ghost use Rattle.ae_prooftext.specs.Texts.{number_line, number_blank, numbers_text, sum_text, term_text, formula_text, ending_text, derived_text, hypothesis_text, refutation_text, line_text, proof_lines_text};
ghost use Rattle.ae_prooftext.specs.Inner.Pieces.{sides_bytes, sorts_bytes, terms_bytes, literals_bytes};

use crate::bytes::{put, put_number, put_number_blank, put_number_line, put_numbers, put_sum};
use crate::formulas::{put_formula, put_literal, put_literals};
use crate::sorts::put_sorts;
use crate::terms::{put_term, put_terms};
use ae_core::formulas::{Formula, Lit};
use ae_core::problems::Signature;
use ae_core::proofs::{Block, ClauseLine, Ending, EqLine, Scaled};
use ae_core::terms::{Sort, Term};
use std::alloc::AllocError;

/// Puts the ending of a block.
#[tactic(auto, unfolding(crate::specs::Texts::ending_text))]
pub fn put_ending(out: &mut Vec<u8>, ending: &Ending) -> Result<(), AllocError>
    ensures { OnOk result (out.new.items ≡ out.old.items ++ ending_text ending.now) }
{
    match ending {
        Ending::Neq { line, hyp } => put_two_numbers(out, b"neq ", *line, *hyp),
        Ending::Const { line } => put_one_number(out, b"const ", *line),
        Ending::Clash { line } => put_one_number(out, b"clash ", *line),
        Ending::Pred { yes, no, lines } => put_pred(out, *yes, *no, lines.as_slice()),
        Ending::Zero { line } => put_one_number(out, b"zero ", *line),
        Ending::Gcd { line } => put_one_number(out, b"gcd ", *line),
    }
}

/// Puts a word, a number and the end of its line.
fn put_one_number(out: &mut Vec<u8>, word: &[u8], n: usize) -> Result<(), AllocError>
    ensures { OnOk result (out.new.items ≡ out.old.items ++ (word.now ++ number_line n)) }
{
    put(out, word)?;
    put_number_line(out, n)
}

/// Puts a word, two numbers and the end of their line.
fn put_two_numbers(
    out: &mut Vec<u8>,
    word: &[u8],
    first: usize,
    second: usize,
) -> Result<(), AllocError>
    ensures { OnOk result (out.new.items ≡ out.old.items ++ (word.now ++ (number_blank first ++ number_line second))) }
{
    put(out, word)?;
    put_number_blank(out, first)?;
    put_number_line(out, second)
}

fn put_pred(out: &mut Vec<u8>, yes: usize, no: usize, lines: &[usize]) -> Result<(), AllocError>
    ensures { OnOk result (out.new.items ≡ out.old.items ++ (codes "pred " ++ (number_blank yes ++ (decimal no ++ numbers_text lines.now)))) }
{
    put(out, b"pred ")?;
    put_number_blank(out, yes)?;
    put_number(out, no)?;
    put_numbers(out, lines)
}

/// Puts the relation of a derived line and its two terms, with a blank behind each.
fn put_sides(
    out: &mut Vec<u8>,
    signature: &Signature,
    word: &[u8],
    left: &Term,
    right: &Term,
) -> Result<(), AllocError>
    ensures { OnOk result (out.new.items ≡ out.old.items ++ sides_bytes signature.now word.now left.now right.now) }
{
    put(out, word)?;
    put_term(out, signature, left)?;
    put(out, b" ")?;
    put_term(out, signature, right)?;
    put(out, b" ")
}

/// Puts a derived line of a block.
#[tactic(auto, unfolding(crate::specs::Texts::derived_text))]
pub fn put_derived(
    out: &mut Vec<u8>,
    signature: &Signature,
    line: &EqLine,
) -> Result<(), AllocError>
    ensures { OnOk result (out.new.items ≡ out.old.items ++ derived_text signature.now line.now) }
{
    match line {
        EqLine::EqHyp { left, right, hyp } => {
            put_sides(out, signature, b"eq ", left, right)?;
            put_one_number(out, b"hyp ", *hyp)
        }
        EqLine::EqRefl { left, right } => {
            put_sides(out, signature, b"eq ", left, right)?;
            put(out, b"refl\n")
        }
        EqLine::EqSym { left, right, line } => {
            put_sides(out, signature, b"eq ", left, right)?;
            put_one_number(out, b"sym ", *line)
        }
        EqLine::EqTrans {
            left,
            right,
            first,
            second,
        } => {
            put_sides(out, signature, b"eq ", left, right)?;
            put_two_numbers(out, b"trans ", *first, *second)
        }
        EqLine::EqCong { left, right, lines } => {
            put_sides(out, signature, b"eq ", left, right)?;
            put_word_numbers(out, b"cong", lines.as_slice())
        }
        EqLine::EqAc { left, right } => {
            put_sides(out, signature, b"eq ", left, right)?;
            put(out, b"ac\n")
        }
        EqLine::EqLin {
            left,
            right,
            times,
            parts,
        } => {
            put_sides(out, signature, b"eq ", left, right)?;
            put_word_sum(out, b"lin ", *times, parts.as_slice())
        }
        EqLine::EqField { left, right } => {
            put_sides(out, signature, b"eq ", left, right)?;
            put(out, b"field\n")
        }
        EqLine::EqFields { left, right, lines } => {
            put_sides(out, signature, b"eq ", left, right)?;
            put_word_numbers(out, b"fields", lines.as_slice())
        }
        EqLine::LeHyp { left, right, hyp } => {
            put_sides(out, signature, b"le ", left, right)?;
            put_one_number(out, b"hyp ", *hyp)
        }
        EqLine::LtHyp { left, right, hyp } => {
            put_sides(out, signature, b"lt ", left, right)?;
            put_one_number(out, b"hyp ", *hyp)
        }
        EqLine::LeSum {
            left,
            right,
            times,
            parts,
        } => {
            put_sides(out, signature, b"le ", left, right)?;
            put_word_sum(out, b"sum ", *times, parts.as_slice())
        }
        EqLine::LtSum {
            left,
            right,
            times,
            parts,
        } => {
            put_sides(out, signature, b"lt ", left, right)?;
            put_word_sum(out, b"sum ", *times, parts.as_slice())
        }
        EqLine::LeRound { left, right, line } => {
            put_sides(out, signature, b"le ", left, right)?;
            put_one_number(out, b"round ", *line)
        }
    }
}

/// Puts a word, numbers and the end of their line.
fn put_word_numbers(out: &mut Vec<u8>, word: &[u8], numbers: &[usize]) -> Result<(), AllocError>
    ensures { OnOk result (out.new.items ≡ out.old.items ++ (word.now ++ numbers_text numbers.now)) }
{
    put(out, word)?;
    put_numbers(out, numbers)
}

/// Puts a word, a sum of lines and the end of its line.
fn put_word_sum(
    out: &mut Vec<u8>,
    word: &[u8],
    times: i128,
    parts: &[Scaled],
) -> Result<(), AllocError>
    ensures { OnOk result (out.new.items ≡ out.old.items ++ (word.now ++ sum_text times parts.now)) }
{
    put(out, word)?;
    put_sum(out, times, parts)
}

fn put_hypothesis(out: &mut Vec<u8>, signature: &Signature, lit: &Lit) -> Result<(), AllocError>
    ensures { OnOk result (out.new.items ≡ out.old.items ++ hypothesis_text signature.now lit.now) }
{
    put(out, b"h ")?;
    put_literal(out, signature, lit)?;
    put(out, b"\n")
}

fn put_hypotheses(out: &mut Vec<u8>, signature: &Signature, lits: &[Lit]) -> Result<(), AllocError>
    ensures { OnOk result (out.new.items ≡ out.old.items ++ flat_map (hypothesis_text signature.now) lits.now) }
{
    for lit in lits {
        put_hypothesis(out, signature, lit)?;
    }
    Ok(())
}

fn put_derived_lines(
    out: &mut Vec<u8>,
    signature: &Signature,
    lines: &[EqLine],
) -> Result<(), AllocError>
    ensures { OnOk result (out.new.items ≡ out.old.items ++ flat_map (derived_text signature.now) lines.now) }
{
    for line in lines {
        put_derived(out, signature, line)?;
    }
    Ok(())
}

/// Puts the lines of a block behind its first one.
#[tactic(auto, unfolding(crate::specs::Texts::refutation_text))]
pub fn put_block(out: &mut Vec<u8>, signature: &Signature, block: &Block) -> Result<(), AllocError>
    ensures { OnOk result (out.new.items ≡ out.old.items ++ refutation_text signature.now block.now) }
{
    put_hypotheses(out, signature, block.deriv.hyps.as_slice())?;
    put_derived_lines(out, signature, block.deriv.lines.as_slice())?;
    put_ending(out, &block.ending)
}

fn put_hyp(
    out: &mut Vec<u8>,
    signature: &Signature,
    place: usize,
    sorts: &[Sort],
) -> Result<(), AllocError>
    ensures { OnOk result (out.new.items ≡ out.old.items ++ (codes "hyp " ++ (number_blank place ++ (codes "[" ++ (sorts_bytes signature.now sorts.now ++ codes "\n"))))) }
{
    put(out, b"hyp ")?;
    put_number_blank(out, place)?;
    put(out, b"[")?;
    put_sorts(out, signature, sorts)?;
    put(out, b"\n")
}

fn put_def(
    out: &mut Vec<u8>,
    signature: &Signature,
    row: usize,
    formula: &Formula,
) -> Result<(), AllocError>
    ensures { OnOk result (out.new.items ≡ out.old.items ++ (codes "def " ++ (number_blank row ++ (formula_text signature.now formula.now ++ codes "\n")))) }
{
    put(out, b"def ")?;
    put_number_blank(out, row)?;
    put_formula(out, signature, formula)?;
    put(out, b"\n")
}

fn put_inst(
    out: &mut Vec<u8>,
    signature: &Signature,
    formula: &Formula,
    terms: &[Term],
) -> Result<(), AllocError>
    ensures { OnOk result (out.new.items ≡ out.old.items ++ (codes "inst " ++ ((formula_text signature.now formula.now ++ codes " ") ++ (codes "[" ++ (terms_bytes signature.now terms.now ++ codes "\n"))))) }
{
    put(out, b"inst ")?;
    put_formula(out, signature, formula)?;
    put(out, b" [")?;
    put_terms(out, signature, terms)?;
    put(out, b"\n")
}

fn put_fresh_line(
    out: &mut Vec<u8>,
    signature: &Signature,
    formula: &Formula,
    first: usize,
) -> Result<(), AllocError>
    ensures { OnOk result (out.new.items ≡ out.old.items ++ (codes "fresh " ++ ((formula_text signature.now formula.now ++ codes " ") ++ number_line first))) }
{
    put(out, b"fresh ")?;
    put_formula(out, signature, formula)?;
    put(out, b" ")?;
    put_number_line(out, first)
}

fn put_exh(out: &mut Vec<u8>, signature: &Signature, term: &Term) -> Result<(), AllocError>
    ensures { OnOk result (out.new.items ≡ out.old.items ++ (codes "exh " ++ (term_text signature.now term.now ++ codes "\n"))) }
{
    put(out, b"exh ")?;
    put_term(out, signature, term)?;
    put(out, b"\n")
}

fn put_tri(
    out: &mut Vec<u8>,
    signature: &Signature,
    left: &Term,
    right: &Term,
) -> Result<(), AllocError>
    ensures { OnOk result (out.new.items ≡ out.old.items ++ (codes "tri " ++ ((term_text signature.now left.now ++ codes " ") ++ (term_text signature.now right.now ++ codes "\n")))) }
{
    put(out, b"tri ")?;
    put_term(out, signature, left)?;
    put(out, b" ")?;
    put_term(out, signature, right)?;
    put(out, b"\n")
}

fn put_block_line(out: &mut Vec<u8>, signature: &Signature, block: &Block) -> Result<(), AllocError>
    ensures { OnOk result (out.new.items ≡ out.old.items ++ (codes "block\n" ++ refutation_text signature.now block.now)) }
{
    put(out, b"block\n")?;
    put_block(out, signature, block)
}

fn put_rup(
    out: &mut Vec<u8>,
    signature: &Signature,
    clause: &[Lit],
    hints: &[usize],
) -> Result<(), AllocError>
    ensures { OnOk result (out.new.items ≡ out.old.items ++ (codes "rup [" ++ (literals_bytes signature.now clause.now ++ numbers_text hints.now))) }
{
    put(out, b"rup [")?;
    put_literals(out, signature, clause)?;
    put_numbers(out, hints)
}

/// Puts a clause line, with the lines of its block where it is one.
#[tactic(auto, unfolding(crate::specs::Texts::line_text))]
pub fn put_line(
    out: &mut Vec<u8>,
    signature: &Signature,
    line: &ClauseLine,
) -> Result<(), AllocError>
    ensures { OnOk result (out.new.items ≡ out.old.items ++ line_text signature.now line.now) }
{
    match line {
        ClauseLine::Hyp { axiom, sorts } => put_hyp(out, signature, *axiom, sorts.as_slice()),
        ClauseLine::Goal => put(out, b"goal\n"),
        ClauseLine::Def { row, formula } => put_def(out, signature, *row, formula),
        ClauseLine::Inst { formula, terms } => put_inst(out, signature, formula, terms.as_slice()),
        ClauseLine::Fresh { formula, first } => put_fresh_line(out, signature, formula, *first),
        ClauseLine::Exh { term } => put_exh(out, signature, term),
        ClauseLine::Tri { left, right } => put_tri(out, signature, left, right),
        ClauseLine::Block(block) => put_block_line(out, signature, block),
        ClauseLine::Rup { clause, hints } => {
            put_rup(out, signature, clause.as_slice(), hints.as_slice())
        }
    }
}

fn put_clause_lines(
    out: &mut Vec<u8>,
    signature: &Signature,
    lines: &[ClauseLine],
) -> Result<(), AllocError>
    ensures { OnOk result (out.new.items ≡ out.old.items ++ flat_map (line_text signature.now) lines.now) }
{
    for line in lines {
        put_line(out, signature, line)?;
    }
    Ok(())
}

/// Puts the clause lines of a proof and its last line.
#[tactic(auto, unfolding(crate::specs::Texts::proof_lines_text))]
pub fn put_lines(
    out: &mut Vec<u8>,
    signature: &Signature,
    lines: &[ClauseLine],
) -> Result<(), AllocError>
    ensures { OnOk result (out.new.items ≡ out.old.items ++ proof_lines_text signature.now lines.now) }
{
    put_clause_lines(out, signature, lines)?;
    put(out, b"end\n")
}
