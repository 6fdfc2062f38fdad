//! The endings of a block.
ghost use Rattle.std.specs.Prelude.{◌≡◌, ◌≢◌, ◌↔◌, [], true, false, IsTrue, IfOk, OnOk, IfErr, MatchOption, List, Some, None};
ghost use Rattle.ae_num.specs.Forms.{first_wide, IfWide};
ghost use Rattle.ae_rules.specs.Lines.{states, Stated, Equated};
ghost use Rattle.ae_rules.specs.Derivations.{EndsNeq, EndsClash, EndsPred, IsConstructor, Ends};
ghost use Rattle.ae_numeric.specs.Stated.{ending_steps};
ghost use Rattle.ae_calc.specs.Inner.EndingParts.{AreDifferentConstructors, AppliesBoth};
ghost use Rattle.ae_core.specs.declared.terms.Term.{Apply};
ghost use Rattle.ae_core.specs.declared.terms.Head.{Head as HeadOf};

use crate::equations::{assumes, equates_all};
use ae_core::equality::{same_head, same_sorts};
use ae_core::formulas::{Formula, Lit};
use ae_core::problems::{Nature, Signature};
use ae_core::proofs::{Ending, EqLine, Relation};
use ae_core::terms::{Head, Term};
use ae_num::numbers::NumFail;
use ae_numeric::combinations::{const_ends, zero_ends};
use ae_numeric::rounding::gcd_ends;
use ae_rules::facts::stated;
use std::alloc::Global;

/// Whether a line equates two terms that a hypothesis says are different.
pub fn ends_neq(hyps: &[Lit], lines: &[EqLine], line: usize, hyp: usize) -> bool
    ensures { IsTrue result ↔ EndsNeq hyps.now lines.now line hyp }
{
    match lines.get(line) {
        None => false,
        Some(found) => {
            let (relation, left, right) = stated(found);
            relation == Relation::Equal && assumes(hyps, hyp, false, left, right)
        }
    }
}

/// The head of a term without type variables and arguments.
pub fn constant_head(term: &Term) -> Option<Head>
    ensures { MatchOption result ((h : HeadOf) → ¬ (term.now ≡ Apply h [] [])) (λ h. term.now ≡ Apply h [] []) }
{
    match term {
        Term::Apply { head, sorts, args } => {
            if sorts.is_empty() && args.is_empty() {
                Some(*head)
            } else {
                None
            }
        }
        _ => None,
    }
}

/// Whether a head is a constructor of an enumeration.
pub fn is_constructor(signature: &Signature, head: Head) -> bool
    ensures { IsTrue result ↔ IsConstructor signature.now head }
{
    match head {
        Head::Symbol(number) => match signature.symbols.as_slice().get(number) {
            None => false,
            Some(entry) => match entry.nature {
                Nature::Choice { .. } => true,
                _ => false,
            },
        },
        Head::True => true,
        Head::False => true,
        Head::Void => true,
        _ => false,
    }
}

/// Whether two terms are different constructors.
pub fn are_different_constructors(signature: &Signature, left: &Term, right: &Term) -> bool
    ensures { IsTrue result ↔ AreDifferentConstructors signature.now left.now right.now }
{
    match (constant_head(left), constant_head(right)) {
        (Some(from), Some(to)) => {
            is_constructor(signature, from) && is_constructor(signature, to) && !same_head(from, to)
        }
        _ => false,
    }
}

/// Whether a line equates two different constructors.
pub fn ends_clash(signature: &Signature, lines: &[EqLine], line: usize) -> bool
    ensures { IsTrue result ↔ EndsClash signature.now lines.now line }
{
    match lines.get(line) {
        None => false,
        Some(found) => {
            let (relation, left, right) = stated(found);
            relation == Relation::Equal && are_different_constructors(signature, left, right)
        }
    }
}

/// Whether two formulas apply one predicate with one list of sorts to arguments that the lines equate.
pub fn applies_both(lines: &[EqLine], left: &Formula, right: &Formula, by: &[usize]) -> bool
    ensures { IsTrue result ↔ AppliesBoth lines.now left.now right.now by.now }
{
    match (left, right) {
        (
            Formula::Pred {
                symbol: from,
                sorts: from_sorts,
                args: from_args,
            },
            Formula::Pred {
                symbol: to,
                sorts: to_sorts,
                args: to_args,
            },
        ) => {
            *from == *to
                && same_sorts(from_sorts.as_slice(), to_sorts.as_slice())
                && equates_all(lines, by, from_args.as_slice(), to_args.as_slice())
        }
        _ => false,
    }
}

/// Whether a hypothesis says that a predicate holds of some arguments, and another one that it doesn't hold of arguments
/// that the lines equate with them.
pub fn ends_pred(hyps: &[Lit], lines: &[EqLine], yes: usize, no: usize, by: &[usize]) -> bool
    ensures { IsTrue result ↔ EndsPred hyps.now lines.now yes no by.now }
{
    match (hyps.get(yes), hyps.get(no)) {
        (Some(holds), Some(fails)) => {
            holds.positive
                && !fails.positive
                && applies_both(lines, &holds.formula, &fails.formula, by)
        }
        _ => false,
    }
}

/// Whether an ending is allowed after all lines of its block.
pub fn ends(
    alloc: Global,
    signature: &Signature,
    hyps: &[Lit],
    lines: &[EqLine],
    ending: &Ending,
) -> Result<bool, NumFail>
    ensures exact { IfOk result (λ b. IsTrue b ↔ Ends signature.now hyps.now lines.now ending.now) }
    ensures fits { OnOk result (first_wide (ending_steps signature.now lines.now ending.now) ≡ None) }
    ensures wide { IfErr result (λ fail. IfWide fail (λ w. first_wide (ending_steps signature.now lines.now ending.now) ≡ Some w)) }
{
    match ending {
        Ending::Neq { line, hyp } => Ok(ends_neq(hyps, lines, *line, *hyp)),
        Ending::Const { line } => const_ends(alloc, signature, lines, *line),
        Ending::Clash { line } => Ok(ends_clash(signature, lines, *line)),
        Ending::Pred { yes, no, lines: by } => {
            Ok(ends_pred(hyps, lines, *yes, *no, by.as_slice()))
        }
        Ending::Zero { line } => zero_ends(alloc, signature, lines, *line),
        Ending::Gcd { line } => gcd_ends(alloc, signature, lines, *line),
    }
}
