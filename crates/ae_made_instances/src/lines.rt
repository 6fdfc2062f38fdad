//! The lines of instances.
ghost use Rattle.std.specs.Prelude.{◌≡◌, ◌<◌, length, map, slice_get, Some, IfOk, MatchBool};
ghost use Rattle.std.specs.List.{AllByRecursion, Contains};
ghost use Rattle.ae_core.specs.declared.formulas.Formula.TheOpen as layer;
ghost use Rattle.ae_core.specs.declared.formulas.Formula.{Formula as FormulaValue, out-Formula};
ghost use Rattle.ae_core.specs.declared.formulas.Quant.{Quant as QuantValue};
ghost use Rattle.ae_core.specs.declared.proofs.ClauseLine.TheVariants.{Hyp, Inst};
ghost use Rattle.ae_instance_lines.specs.Stated.{IsLineOfSorts, IsLineOfTerms};
ghost use Rattle.ae_journal.specs.declared.lines.Line.TheVariants as line_variants;
ghost use Rattle.ae_made_instances.specs.Inner.Making.{IsBodyLine, is_all_layer};
ghost use Rattle.ae_owners.specs.declared.owners.Owner.{Owner as OwnerEntry};
ghost use Rattle.ae_rules.specs.Derivations.{HasConclusion};
ghost use Rattle.ae_rules.specs.Instances as spec;
ghost use Rattle.ae_searching.specs.Steps.{IsInstanceLine};
ghost use Rattle.ae_store.specs.Shapes.{shapes};
ghost use Rattle.ae_store.specs.Terms.{named, terms};

use ae_between_rounds::search::Task;
use ae_calc::instances::hypothesis;
use ae_core::equality::{same_formula, same_terms};
use ae_core::formulas::Formula;
use ae_core::lists::List;
use ae_core::sorts::are_sorts;
use ae_core::terms::{Sort, Term};
use ae_instance_lines::lines::{InstanceLine, sorts_line, terms_line};
use ae_journal::lines::Line;
use ae_num::forms::Name;
use ae_owners::owners::Owner;
use ae_store::store::Store;
use std::alloc::{AllocError, Global};

/// The terms of names.
pub(crate) fn terms_of(
    alloc: Global,
    store: &Store,
    names: &List<Name>,
) -> Result<List<Term>, AllocError>
    requires within { AllByRecursion (λ n. n < length store.now.nodes) names.now }
    ensures { IfOk result (λ ts. ts ≡ map (named (terms (shapes store.now.nodes))) names.now) }
{
    let mut found = List::new(alloc);
    for name in names.as_slice() {
        found.push(store.term(*name)?)?;
    }
    Ok(found)
}

/// Whether a line is that of an axiom with these sorts.
fn is_of_sorts(line: &Line, place: usize, sorts: &[Sort]) -> bool
    ensures { MatchBool result (line.now ≡ line_variants.TypeInstance place sorts.now) (¬ (line.now ≡ line_variants.TypeInstance place sorts.now)) }
{
    match line {
        Line::TypeInstance {
            axiom,
            sorts: others,
        } => *axiom == place && are_sorts(others.as_slice(), sorts),
        _ => false,
    }
}

/// Whether a line is that of a block with these terms.
fn is_of_terms(line: &Line, formula: &Formula, terms: &[Term]) -> bool
    ensures { MatchBool result (line.now ≡ line_variants.TermInstance formula.now terms.now) (¬ (line.now ≡ line_variants.TermInstance formula.now terms.now)) }
{
    match line {
        Line::TermInstance {
            formula: other,
            terms: others,
        } => same_terms(others.as_slice(), terms) && same_formula(other, formula),
        _ => false,
    }
}

/// Whether a line is this one of an instance.
fn is_line(line: &Line, own: &Line) -> bool
    requires instance { IsInstanceLine own.now }
    ensures { MatchBool result (line.now ≡ own.now) (¬ (line.now ≡ own.now)) }
{
    match own {
        Line::TypeInstance { axiom, sorts } => is_of_sorts(line, *axiom, sorts.as_slice()),
        Line::TermInstance { formula, terms } => is_of_terms(line, formula, terms.as_slice()),
        _ => false,
    }
}

/// Whether a line of an instance is among the lines.
pub(crate) fn is_noted(lines: &[Line], own: &Line) -> bool
    requires instance { IsInstanceLine own.now }
    ensures { MatchBool result (Contains lines.now own.now) (¬ Contains lines.now own.now) }
{
    for i in 0..lines.len() {
        if is_line(&lines[i], own) {
            return true;
        }
    }
    false
}

/// The line of an axiom with sorts put for its type variables.
pub(crate) fn axiom_line(
    task: Task<'_>,
    place: usize,
    sorts: &List<Sort>,
) -> Result<InstanceLine, AllocError>
    requires stated { HasConclusion task.problem.now task.goal (Hyp place sorts.now) }
    ensures { IfOk result (IsLineOfSorts task.entry.problem.now task.entry.goal place sorts.now) }
{
    match sorts_line(task.alloc, task.problem, task.goal, place, sorts.as_slice())? {
        Some(line) => Ok(line),
        None => unreachable!(),
    }
}

/// The line of a block with terms put for its variables.
pub(crate) fn block_line(
    task: Task<'_>,
    formula: &Formula,
    terms: &List<Term>,
) -> Result<InstanceLine, AllocError>
    requires stated { HasConclusion task.problem.now task.goal (Inst formula.now terms.now) }
    ensures { IfOk result (IsLineOfTerms task.entry.problem.now task.entry.goal formula.now terms.now) }
{
    match terms_line(
        task.alloc,
        task.problem,
        task.goal,
        formula,
        terms.as_slice(),
    )? {
        Some(line) => Ok(line),
        None => unreachable!(),
    }
}

/// Whether a formula is a block for all values.
fn is_all(formula: &Formula) -> bool
    ensures { result ≡ is_all_layer (out-Formula formula.now) }
{
    match formula {
        Formula::All(_) => true,
        _ => false,
    }
}

/// The line of the body of an axiom's formula with sorts put, where the formula is a block for all values.
pub(crate) fn body_line(
    task: Task<'_>,
    place: usize,
    sorts: &List<Sort>,
    terms: &List<Term>,
) -> Result<Option<InstanceLine>, AllocError>
    requires stated { (f : FormulaValue) × (spec.hypothesis task.problem.now task.goal place sorts.now ≡ Some f) ×
        ((q : QuantValue) → out-Formula f ≡ layer.All q → HasConclusion task.problem.now task.goal (Inst f terms.now)) }
    ensures { IfOk result (IsBodyLine task.entry.problem.now task.entry.goal place sorts.now terms.now) }
{
    match hypothesis(task.alloc, task.problem, task.goal, place, sorts.as_slice())? {
        None => unreachable!(),
        Some(formula) => {
            if !is_all(formula.get()) {
                return Ok(None);
            }
            let line = block_line(task, formula.get(), terms)?;
            Ok(Some(line))
        }
    }
}

/// The line of the formula of an owner with terms put for its variables.
pub(crate) fn literal_line(
    task: Task<'_>,
    owners: &List<Owner>,
    owner: usize,
    terms: &List<Term>,
) -> Result<InstanceLine, AllocError>
    requires at { (o : OwnerEntry) × (slice_get owners.now owner ≡ Some o) × HasConclusion task.problem.now task.goal (Inst o.formula terms.now) }
    ensures { (o : OwnerEntry) → slice_get owners.now owner ≡ Some o → IfOk result (IsLineOfTerms task.entry.problem.now task.entry.goal o.formula terms.now) }
{
    match owners.get(owner) {
        Some(found) => block_line(task, found.formula.get(), terms),
        None => unreachable!(),
    }
}

/// The place of the axiom that an owner is; a literal has none.
pub(crate) fn place_of(owners: &List<Owner>, owner: usize) -> Option<usize>
    ensures { (o : OwnerEntry) → slice_get owners.now owner ≡ Some o → result ≡ o.place }
{
    match owners.get(owner) {
        Some(found) => found.place,
        None => None,
    }
}
