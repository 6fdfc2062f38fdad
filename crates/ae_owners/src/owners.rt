//! Owners: what is instantiated, with the patterns of its triggers.
ghost use Rattle.std.specs.Prelude.{◌≡◌, ℕ, true, None, Some, IfOk, MatchOption};
ghost use Rattle.ae_core.specs.declared.problems.Problem.{Problem};
ghost use Rattle.ae_journal.specs.States.{of_literal, of_axiom, pattern_of, axiom_pattern, is_universal as universal};
ghost use Rattle.ae_core.specs.declared.formulas.Formula.{out-Formula};
ghost use Rattle.ae_trigger.specs.Patterns.{patterns_of};
ghost use Rattle.ae_owners.specs.Owners.{IsOwnerIn, owner_of};

use ae_core::copies::copy_formula;
use ae_core::formulas::{Formula, Lit};
use ae_core::lists::{Boxed, List, at};
use ae_core::problems::{Item, Problem, Signature};
use ae_trigger::patterns::{Pattern, patterns};
use std::alloc::{AllocError, Global};

/// A universal literal, or an axiom with type variables, with a pattern for each of its triggers.
#[derive(Drop)]
pub struct Owner {
    /// The place of the axiom among the items; a literal has none.
    pub place: Option<usize>,
    /// Whether the literal is true; of an axiom it means nothing.
    pub positive: bool,
    /// The formula of the literal, or of the axiom.
    pub formula: Boxed<Formula>,
    pub patterns: List<Pattern>,
}

/// Whether the literal is a true block for all values, or a false one for some value.
pub fn is_universal(lit: &Lit) -> bool
    ensures { result ≡ universal lit.now }
{
    match &lit.formula {
        Formula::All(_) => lit.positive,
        Formula::Ex(_) => !lit.positive,
        _ => false,
    }
}

/// A universal literal with its patterns.
pub fn literal_owner(alloc: Global, signature: &Signature, lit: &Lit) -> Result<Owner, AllocError>
    requires universal { universal lit.now ≡ true }
    ensures own { IfOk result (λ o. owner_of o ≡ of_literal lit.now) }
    ensures right { IfOk result (λ o. (p : Problem) (g : ℕ) → p.signature ≡ signature.now → IsOwnerIn p g o) }
{
    let formula = Boxed::new(alloc, copy_formula(alloc, &lit.formula)?)?;
    Ok(Owner {
        place: None,
        positive: lit.positive,
        formula,
        patterns: patterns(alloc, signature, 0, &lit.formula)?,
    })
}

/// An axiom with its patterns, where it has type variables.
fn varied_owner(
    alloc: Global,
    signature: &Signature,
    place: usize,
    vars: usize,
    body: &Formula,
) -> Result<Option<Owner>, AllocError>
    ensures { IfOk result (λ o. MatchOption o (vars ≡ 0) (λ w. (owner_of w ≡ of_axiom place) × (w.patterns ≡ patterns_of (axiom_pattern signature.now vars body.now (out-Formula body.now))) × ¬ (vars ≡ 0))) }
{
    if vars == 0 {
        return Ok(None);
    }
    let formula = Boxed::new(alloc, copy_formula(alloc, body)?)?;
    Ok(Some(Owner {
        place: Some(place),
        positive: true,
        formula,
        patterns: patterns(alloc, signature, vars, body)?,
    }))
}

/// The axiom at a place with its patterns, where it is one before the goal and has type variables.
pub fn axiom_owner(
    alloc: Global,
    problem: &Problem,
    goal: usize,
    place: usize,
) -> Result<Option<Owner>, AllocError>
    ensures { IfOk result (λ o. MatchOption o (pattern_of problem.now goal (of_axiom place) ≡ None) (λ w. (owner_of w ≡ of_axiom place) × IsOwnerIn problem.now goal w)) }
{
    if place >= goal {
        return Ok(None);
    }
    match at(problem.items.as_slice(), place) {
        None => Ok(None),
        Some(item) => match item {
            Item::Axiom { vars, body, .. } => {
                varied_owner(alloc, &problem.signature, place, *vars, body)
            }
            Item::Goal { .. } => Ok(None),
        },
    }
}
