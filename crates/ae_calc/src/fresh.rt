//! Whether the constants that a line puts are new: they stand in no earlier line, and not in the line's formula.
ghost use Rattle.std.specs.Prelude.{◌≡◌, ◌↔◌, IfOk, IsTrue};
ghost use Rattle.std.specs.List.{list_any};
ghost use Rattle.ae_calc.specs.Inner.Mentions as spec;
ghost use Rattle.ae_rules.specs.Derivations.{AreNew};
ghost use Rattle.ae_rules.specs.Instances as instances;
ghost use Rattle.ae_core.specs.declared.formulas.Formula.{out-Formula};

use crate::clause_lines::conclusion;
use crate::mentions::{any_mentions, clause_mentions, formula_mentions, is_put, mentions};
use ae_core::formulas::Formula;
use ae_core::problems::Problem;
use ae_core::proofs::{ClauseLine, EqLine};
use ae_core::terms::Sort;
use ae_rules::facts::stated;
use std::alloc::{AllocError, Global};

/// Whether one of the constants stands in what one of the derived lines states.
fn derived_mentions(lines: &[EqLine], first: usize, sorts: &[Sort]) -> bool
    ensures { result ≡ list_any (spec.derived_mentions first sorts.now) lines.now }
{
    for line in lines {
        let (_relation, left, right) = stated(line);
        if mentions(left, first, sorts) || mentions(right, first, sorts) {
            return true;
        }
    }
    false
}

/// Whether one of them is among those of other sorts, numbered from `other`.
#[tactic(auto, using(crate::proofs::Mentioning::put_none, crate::proofs::Mentioning::put_some))]
fn both_put(other: usize, others: &[Sort], first: usize, sorts: &[Sort]) -> bool
    ensures { result ≡ list_any (spec.is_put first sorts.now) (instances.count_from other others.now) }
{
    for i in 0..others.len() {
        if is_put(first, sorts, other, i, &others[i]) {
            return true;
        }
    }
    false
}

/// The sorts of the variables of a block, and none where the formula isn't one.
fn block_sorts(formula: &Formula) -> &[Sort]
    ensures { result.now ≡ instances.block_sorts (out-Formula formula.now) }
{
    match formula {
        Formula::All(quant) => quant.sorts.as_slice(),
        Formula::Ex(quant) => quant.sorts.as_slice(),
        _ => &[],
    }
}

/// Whether one of them is among those that another line puts for the variables of its block.
fn block_puts(other: usize, formula: &Formula, first: usize, sorts: &[Sort]) -> bool
    ensures { result ≡ list_any (spec.is_put first sorts.now) (instances.fresh_terms other formula.now) }
{
    both_put(other, block_sorts(formula), first, sorts)
}

/// Whether one of them stands in a line itself.
fn own_mentions(line: &ClauseLine, first: usize, sorts: &[Sort]) -> bool
    ensures { result ≡ spec.own_mentions first sorts.now line.now }
{
    match line {
        ClauseLine::Hyp { .. } => false,
        ClauseLine::Goal => false,
        ClauseLine::Def { formula, .. } => formula_mentions(formula, first, sorts),
        ClauseLine::Inst { formula, terms } => {
            formula_mentions(formula, first, sorts) || any_mentions(terms.as_slice(), first, sorts)
        }
        ClauseLine::Fresh {
            formula,
            first: other,
        } => {
            formula_mentions(formula, first, sorts) || block_puts(*other, formula, first, sorts)
        }
        ClauseLine::Exh { term } => mentions(term, first, sorts),
        ClauseLine::Tri { left, right } => {
            mentions(left, first, sorts) || mentions(right, first, sorts)
        }
        ClauseLine::Block(block) => {
            clause_mentions(block.deriv.hyps.as_slice(), first, sorts)
                || derived_mentions(block.deriv.lines.as_slice(), first, sorts)
        }
        ClauseLine::Rup { clause, .. } => clause_mentions(clause.as_slice(), first, sorts),
    }
}

/// Whether one of them stands in a line or in its clause.
pub fn line_mentions(
    alloc: Global,
    problem: &Problem,
    goal: usize,
    line: &ClauseLine,
    first: usize,
    sorts: &[Sort],
) -> Result<bool, AllocError>
    ensures { IfOk result (λ b. b ≡ spec.line_mentions problem.now goal first sorts.now line.now) }
{
    if own_mentions(line, first, sorts) {
        return Ok(true);
    }
    match conclusion(alloc, problem, goal, line)? {
        None => Ok(false),
        Some(clause) => Ok(clause_mentions(clause.as_slice(), first, sorts)),
    }
}

/// Whether one of them stands in one of the lines, or in its clause.
pub fn lines_mention(
    alloc: Global,
    problem: &Problem,
    goal: usize,
    lines: &[ClauseLine],
    first: usize,
    sorts: &[Sort],
) -> Result<bool, AllocError>
    ensures { IfOk result (λ b. b ≡ list_any (spec.line_mentions problem.now goal first sorts.now) lines.now) }
{
    for line in lines {
        if line_mentions(alloc, problem, goal, line, first, sorts)? {
            return Ok(true);
        }
    }
    Ok(false)
}

/// Whether constants of these sorts, numbered from `first`, stand in no earlier line and not in the formula.
fn are_unmentioned(
    alloc: Global,
    problem: &Problem,
    goal: usize,
    earlier: &[ClauseLine],
    first: usize,
    sorts: &[Sort],
    formula: &Formula,
) -> Result<bool, AllocError>
    ensures { IfOk result (λ b. b ≡ spec.no_mention problem.now goal earlier.now first sorts.now formula.now) }
{
    if formula_mentions(formula, first, sorts) {
        return Ok(false);
    }
    Ok(!lines_mention(alloc, problem, goal, earlier, first, sorts)?)
}

/// Whether the constants that a line puts for the variables of a block, numbered from `first`, stand in no earlier line and not in the block.
pub fn are_new(
    alloc: Global,
    problem: &Problem,
    goal: usize,
    earlier: &[ClauseLine],
    first: usize,
    formula: &Formula,
) -> Result<bool, AllocError>
    ensures { IfOk result (λ b. IsTrue b ↔ AreNew problem.now goal earlier.now first formula.now) }
{
    let sorts = block_sorts(formula);
    are_unmentioned(alloc, problem, goal, earlier, first, sorts, formula)
}
