//! The lines of proofs.
ghost use Rattle.std.specs.Prelude.{◌≡◌, true};
ghost use Rattle.std.specs.List.{list_all};
ghost use Rattle.ae_counts.specs.Inner.Counted as spec;

use crate::formulas::{formula_counts, literals_count, sides_count};
use crate::numbers::{number_counts, numbers_count};
use crate::terms::{sorts_count, term_counts, terms_count};
use ae_core::proofs::{Block, ClauseLine, Ending, EqLine, Scaled};

// The number of a line in a sum has 64 bits.
fn part_counts(part: Scaled)
    ensures { spec.part_counts part ≡ true }
{
    number_counts(part.line);
}

fn parts_count(parts: &[Scaled])
    ensures { list_all spec.part_counts parts.now ≡ true }
{
    for part in parts {
        part_counts(*part);
    }
}

// The numbers of something that a line of a block shows have.
fn derived_counts(line: &EqLine)
    ensures { spec.derived_counts line.now ≡ true }
{
    match line {
        EqLine::EqHyp { left, right, hyp } => {
            sides_count(left, right);
            number_counts(*hyp);
        }
        EqLine::EqRefl { left, right } => sides_count(left, right),
        EqLine::EqSym { left, right, line } => {
            sides_count(left, right);
            number_counts(*line);
        }
        EqLine::EqTrans {
            left,
            right,
            first,
            second,
        } => {
            sides_count(left, right);
            number_counts(*first);
            number_counts(*second);
        }
        EqLine::EqCong { left, right, lines } => {
            sides_count(left, right);
            numbers_count(lines.as_slice());
        }
        EqLine::EqAc { left, right } => sides_count(left, right),
        EqLine::EqLin {
            left,
            right,
            parts,
            ..
        } => {
            sides_count(left, right);
            parts_count(parts.as_slice());
        }
        EqLine::EqField { left, right } => sides_count(left, right),
        EqLine::EqFields { left, right, lines } => {
            sides_count(left, right);
            numbers_count(lines.as_slice());
        }
        EqLine::LeHyp { left, right, hyp } => {
            sides_count(left, right);
            number_counts(*hyp);
        }
        EqLine::LtHyp { left, right, hyp } => {
            sides_count(left, right);
            number_counts(*hyp);
        }
        EqLine::LeSum {
            left,
            right,
            parts,
            ..
        } => {
            sides_count(left, right);
            parts_count(parts.as_slice());
        }
        EqLine::LtSum {
            left,
            right,
            parts,
            ..
        } => {
            sides_count(left, right);
            parts_count(parts.as_slice());
        }
        EqLine::LeRound { left, right, line } => {
            sides_count(left, right);
            number_counts(*line);
        }
    }
}

fn derived_count(lines: &[EqLine])
    ensures { list_all spec.derived_counts lines.now ≡ true }
{
    for line in lines {
        derived_counts(line);
    }
}

// Those of a block's end have.
fn ending_counts(ending: &Ending)
    ensures { spec.ending_counts ending.now ≡ true }
{
    match ending {
        Ending::Neq { line, hyp } => {
            number_counts(*line);
            number_counts(*hyp);
        }
        Ending::Const { line } => number_counts(*line),
        Ending::Clash { line } => number_counts(*line),
        Ending::Pred { yes, no, lines } => {
            number_counts(*yes);
            number_counts(*no);
            numbers_count(lines.as_slice());
        }
        Ending::Zero { line } => number_counts(*line),
        Ending::Gcd { line } => number_counts(*line),
    }
}

fn block_counts(block: &Block)
    ensures { spec.block_counts block.now ≡ true }
{
    literals_count(block.deriv.hyps.as_slice());
    derived_count(block.deriv.lines.as_slice());
    ending_counts(&block.ending);
}

// Those that a line shows have.
fn line_counts(line: &ClauseLine)
    ensures { spec.line_counts line.now ≡ true }
{
    match line {
        ClauseLine::Hyp { axiom, sorts } => {
            number_counts(*axiom);
            sorts_count(sorts.as_slice());
        }
        ClauseLine::Goal => {}
        ClauseLine::Def { row, formula } => {
            number_counts(*row);
            formula_counts(formula);
        }
        ClauseLine::Inst { formula, terms } => {
            formula_counts(formula);
            terms_count(terms.as_slice());
        }
        ClauseLine::Fresh { formula, first } => {
            formula_counts(formula);
            number_counts(*first);
        }
        ClauseLine::Exh { term } => term_counts(term),
        ClauseLine::Tri { left, right } => sides_count(left, right),
        ClauseLine::Block(block) => block_counts(block),
        ClauseLine::Rup { clause, hints } => {
            literals_count(clause.as_slice());
            numbers_count(hints.as_slice());
        }
    }
}

pub(crate) fn lines_count(lines: &[ClauseLine])
    ensures { list_all spec.line_counts lines.now ≡ true }
{
    for line in lines {
        line_counts(line);
    }
}
