//! Whether one of the constants that a line puts stands in a term, a formula or a clause.
//!
//! The constants are those of a list of sorts, numbered from a first number on.
ghost use Rattle.std.specs.Prelude.{◌≡◌, ◌+◌};
ghost use Rattle.std.specs.List.{list_any};
ghost use Rattle.ae_calc.specs.Inner.Mentions as spec;
ghost use Rattle.ae_core.specs.declared.terms.Term.{Fresh};

use ae_core::formulas::{Formula, Lit, Quant};
use ae_core::lists::{List, at};
use ae_core::sorts::is_sort;
use ae_core::terms::{Sort, Term};

/// Whether this sort stands at a place of the list.
fn has_sort(sorts: &[Sort], place: usize, sort: &Sort) -> bool
    ensures { result ≡ spec.has_sort sorts.now place sort.now }
{
    match at(sorts, place) {
        None => false,
        Some(found) => is_sort(found, sort),
    }
}

/// Whether the constant of this sort, with the number `base + offset`, is one of those of `sorts`, numbered from `first`.
pub fn is_put(first: usize, sorts: &[Sort], base: usize, offset: usize, sort: &Sort) -> bool
    ensures { result ≡ spec.is_put first sorts.now (Fresh (base + offset) sort.now) }
{
    if base < first {
        let gap = first - base;
        if offset < gap {
            return false;
        }
        return has_sort(sorts, offset - gap, sort);
    }
    let gap = base - first;
    if gap >= sorts.len() {
        return false;
    }
    has_sort(&sorts[gap..], offset, sort)
}

/// Whether one of the constants stands in a term.
#[cycle(mentions)]
#[tactic(auto, using(crate::proofs::Mentioning::mention_rules))]
pub fn mentions(term: &Term, first: usize, sorts: &[Sort]) -> bool
    ensures { result ≡ spec.mentions first sorts.now term.now }
{
    match term {
        Term::Bound(_) => false,
        Term::Num { .. } => false,
        Term::Fresh { number, sort } => is_put(first, sorts, *number, 0, sort.get()),
        Term::Apply { args, .. } => any_mentions(args.as_slice(), first, sorts),
    }
}

/// Whether one of them stands in one of the terms.
#[cycle(mentions)]
pub fn any_mentions(terms: &[Term], first: usize, sorts: &[Sort]) -> bool
    ensures { result ≡ list_any (spec.mentions first sorts.now) terms.now }
{
    for term in terms {
        if mentions(term, first, sorts) {
            return true;
        }
    }
    false
}

/// Whether one of them stands in a trigger.
fn triggers_mention(triggers: &[List<Term>], first: usize, sorts: &[Sort]) -> bool
    ensures { result ≡ list_any (list_any (spec.mentions first sorts.now)) triggers.now }
{
    for trigger in triggers {
        if any_mentions(trigger.as_slice(), first, sorts) {
            return true;
        }
    }
    false
}

/// Whether one of them stands in a block, its triggers included.
#[cycle(formula_mentions)]
#[tactic(auto, using(crate::proofs::Mentioning::quant_block))]
fn quant_mentions(quant: &Quant, first: usize, sorts: &[Sort]) -> bool
    ensures { result ≡ spec.quant_mentions first sorts.now quant.now }
{
    triggers_mention(quant.triggers.as_slice(), first, sorts)
        || formula_mentions(quant.body.get(), first, sorts)
}

/// Whether one of them stands in a formula, its triggers included.
#[cycle(formula_mentions)]
#[tactic(auto, using(crate::proofs::Mentioning::formula_mention_rules))]
pub fn formula_mentions(formula: &Formula, first: usize, sorts: &[Sort]) -> bool
    ensures { result ≡ spec.formula_mentions first sorts.now formula.now }
{
    match formula {
        Formula::True => false,
        Formula::False => false,
        Formula::Eq { left, right } => {
            mentions(left, first, sorts) || mentions(right, first, sorts)
        }
        Formula::Lt { left, right } => {
            mentions(left, first, sorts) || mentions(right, first, sorts)
        }
        Formula::Le { left, right } => {
            mentions(left, first, sorts) || mentions(right, first, sorts)
        }
        Formula::Pred { args, .. } => any_mentions(args.as_slice(), first, sorts),
        Formula::Not(part) => formula_mentions(part.get(), first, sorts),
        Formula::And(left, right) => {
            formula_mentions(left.get(), first, sorts)
                || formula_mentions(right.get(), first, sorts)
        }
        Formula::Or(left, right) => {
            formula_mentions(left.get(), first, sorts)
                || formula_mentions(right.get(), first, sorts)
        }
        Formula::Xor(left, right) => {
            formula_mentions(left.get(), first, sorts)
                || formula_mentions(right.get(), first, sorts)
        }
        Formula::Iff(left, right) => {
            formula_mentions(left.get(), first, sorts)
                || formula_mentions(right.get(), first, sorts)
        }
        Formula::All(quant) => quant_mentions(quant, first, sorts),
        Formula::Ex(quant) => quant_mentions(quant, first, sorts),
    }
}

/// Whether one of them stands in a clause.
pub fn clause_mentions(clause: &[Lit], first: usize, sorts: &[Sort]) -> bool
    ensures { result ≡ spec.clause_mentions first sorts.now clause.now }
{
    for lit in clause {
        if formula_mentions(&lit.formula, first, sorts) {
            return true;
        }
    }
    false
}
