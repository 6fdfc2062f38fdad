//! Patterns: the triggers of what is instantiated, with the variables that a match gives names and sorts.
ghost use Rattle.std.specs.Prelude.{◌≡◌, length, map, IfOk};
ghost use Rattle.ae_journal.specs.Triggers.{triggers};
ghost use Rattle.ae_trigger.specs.Patterns as spec;

use crate::choice::made;
use ae_core::copies::{copy_sorts, copy_terms, copy_triggers};
use ae_core::formulas::{Formula, Quant};
use ae_core::lists::List;
use ae_core::problems::Signature;
use ae_core::terms::{Sort, Term};
use ae_num::forms::Name;
use std::alloc::{AllocError, Global};

/// A trigger: its terms equal known terms in a match.
#[derive(Drop)]
pub struct Pattern {
    /// The sorts of the variables that get names, in the order of the block: the last one has the distance 0.
    pub vars: List<Sort>,
    /// The number of type variables that get sorts.
    pub sort_vars: usize,
    pub terms: List<Term>,
}

/// What a match puts for the variables of a pattern.
#[derive(Drop)]
pub struct Subst {
    /// The sorts of the type variables, by their numbers.
    pub sorts: List<Sort>,
    /// The names of the variables, in the order of the block.
    pub terms: List<Name>,
}

/// A pattern with this trigger.
fn with_trigger(
    alloc: Global,
    sorts: &[Sort],
    sort_vars: usize,
    terms: &[Term],
) -> Result<Pattern, AllocError>
    ensures { IfOk result (λ p. p ≡ spec.pattern sort_vars sorts.now terms.now) }
{
    Ok(Pattern {
        vars: copy_sorts(alloc, sorts)?,
        sort_vars,
        terms: copy_terms(alloc, terms)?,
    })
}

/// A pattern for each trigger.
fn with_each(
    alloc: Global,
    sorts: &[Sort],
    sort_vars: usize,
    triggers: &[List<Term>],
) -> Result<List<Pattern>, AllocError>
    ensures { IfOk result (λ ps. ps ≡ map (spec.pattern sort_vars sorts.now) triggers.now) }
{
    let mut patterns = List::new(alloc);
    for trigger in triggers {
        let next = with_trigger(alloc, sorts, sort_vars, trigger.as_slice())?;
        patterns.push(next)?;
    }
    Ok(patterns)
}

/// The triggers of a block: those that are written, or else those that are made.
fn block_triggers(
    alloc: Global,
    signature: &Signature,
    sort_vars: usize,
    quant: &Quant,
) -> Result<List<List<Term>>, AllocError>
    ensures { IfOk result (λ ts. ts ≡ triggers signature.now sort_vars (length quant.now.sorts) quant.now.triggers quant.now.body) }
{
    if quant.triggers.is_empty() {
        let made = made(
            alloc,
            signature,
            sort_vars,
            quant.sorts.len(),
            quant.body.get(),
        )?;
        return Ok(made);
    }
    let written = copy_triggers(alloc, quant.triggers.as_slice())?;
    Ok(written)
}

/// The patterns of a block.
fn block_patterns(
    alloc: Global,
    signature: &Signature,
    sort_vars: usize,
    quant: &Quant,
) -> Result<List<Pattern>, AllocError>
    ensures { IfOk result (λ ps. ps ≡ spec.patterns_of (spec.block_pattern signature.now sort_vars quant.now)) }
{
    let triggers = block_triggers(alloc, signature, sort_vars, quant)?;
    let patterns = with_each(
        alloc,
        quant.sorts.as_slice(),
        sort_vars,
        triggers.as_slice(),
    )?;
    Ok(patterns)
}

/// The patterns of an axiom of which only the type variables are put.
fn bare_patterns(
    alloc: Global,
    signature: &Signature,
    sort_vars: usize,
    formula: &Formula,
) -> Result<List<Pattern>, AllocError>
    ensures { IfOk result (λ ps. ps ≡ spec.patterns_of (spec.bare_pattern signature.now sort_vars formula.now)) }
{
    let triggers = made(alloc, signature, sort_vars, 0, formula)?;
    let patterns = with_each(alloc, &[], sort_vars, triggers.as_slice())?;
    Ok(patterns)
}

/// The patterns of a quantified formula, where there are no type variables, or of an axiom with so many:
/// a pattern for each trigger, in order. The triggers are those that are written, or else those that are
/// made of the body's candidates.
///
/// Of an axiom the variables of an `All` block are put too; of any other the type variables alone.
pub fn patterns(
    alloc: Global,
    signature: &Signature,
    sort_vars: usize,
    formula: &Formula,
) -> Result<List<Pattern>, AllocError>
    ensures { IfOk result (λ ps. ps ≡ spec.patterns_of (spec.instantiated signature.now sort_vars formula.now)) }
{
    match formula {
        Formula::All(quant) => block_patterns(alloc, signature, sort_vars, quant),
        Formula::Ex(quant) => {
            if sort_vars == 0 {
                block_patterns(alloc, signature, 0, quant)
            } else {
                bare_patterns(alloc, signature, sort_vars, formula)
            }
        }
        _ => bare_patterns(alloc, signature, sort_vars, formula),
    }
}
