//! What a problem begins with: its hypotheses, the goal's negation, and whether an axiom has type variables.
ghost use Rattle.std.specs.Prelude.{◌≡◌, [], length, not, IfOk};
ghost use Rattle.ae_base.specs.Options.{known};
ghost use Rattle.ae_rules.specs.Derivations as derivations;
ghost use Rattle.ae_rules.specs.Instances as instances;
ghost use Rattle.ae_journal.specs.States.{of_axiom, pattern_of};
ghost use Rattle.ae_saturated.specs.Firsts as spec;

use crate::literals::stands;
use ae_core::formulas::{Formula, Lit};
use ae_core::problems::{Item, Problem};
use ae_core::putting::instance;
use ae_rules::literals::{no_of, yes_of};
use std::alloc::{AllocError, Global};

/// The axiom without type variables at a place before that of the goal.
fn hypothesis(
    alloc: Global,
    problem: &Problem,
    goal: usize,
    place: usize,
) -> Result<Option<Formula>, AllocError>
    ensures { IfOk result (λ f. f ≡ instances.hypothesis problem.now goal place []) }
{
    if place >= goal {
        return Ok(None);
    }
    match problem.items.get(place) {
        None => Ok(None),
        Some(item) => match item {
            Item::Axiom { vars, body, .. } => {
                if *vars != 0 {
                    return Ok(None);
                }
                Ok(Some(instance(alloc, body, &[])?))
            }
            Item::Goal { .. } => Ok(None),
        },
    }
}

/// Whether the hypothesis at a place stands, if there is one.
fn hypothesis_stands(
    alloc: Global,
    problem: &Problem,
    goal: usize,
    literals: &[Lit],
    place: usize,
) -> Result<bool, AllocError>
    ensures { IfOk result (λ b. b ≡ spec.yes_stands literals.now (instances.hypothesis problem.now goal place [])) }
{
    match hypothesis(alloc, problem, goal, place)? {
        None => Ok(true),
        Some(formula) => {
            let literal = yes_of(alloc, &formula)?;
            Ok(stands(literals, &literal))
        }
    }
}

/// Whether each hypothesis does.
#[tactic(auto, using(crate::proofs::FirstTests::one_hypothesis))]
fn hypotheses_stand(
    alloc: Global,
    problem: &Problem,
    goal: usize,
    literals: &[Lit],
) -> Result<bool, AllocError>
    ensures { IfOk result (λ b. b ≡ spec.hypotheses_stand problem.now goal literals.now (length problem.now.items)) }
{
    for place in 0..problem.items.len() {
        if !hypothesis_stands(alloc, problem, goal, literals, place)? {
            return Ok(false);
        }
    }
    Ok(true)
}

/// Whether the goal's negation stands, if there is the goal.
fn negation_stands(
    alloc: Global,
    problem: &Problem,
    goal: usize,
    literals: &[Lit],
) -> Result<bool, AllocError>
    ensures { IfOk result (λ b. b ≡ spec.no_stands literals.now (derivations.goal_body problem.now goal)) }
{
    match problem.items.get(goal) {
        None => Ok(true),
        Some(item) => match item {
            Item::Axiom { .. } => Ok(true),
            Item::Goal { body, .. } => {
                let literal = no_of(alloc, body)?;
                Ok(stands(literals, &literal))
            }
        },
    }
}

/// Whether the hypotheses without type variables and the goal's negation stand.
pub fn firsts_stand(
    alloc: Global,
    problem: &Problem,
    goal: usize,
    literals: &[Lit],
) -> Result<bool, AllocError>
    ensures { IfOk result (λ b. b ≡ spec.firsts_stand problem.now goal literals.now) }
{
    if !hypotheses_stand(alloc, problem, goal, literals)? {
        return Ok(false);
    }
    negation_stands(alloc, problem, goal, literals)
}

/// Whether an item isn't an axiom with type variables before the goal.
fn is_plain(problem: &Problem, goal: usize, place: usize) -> bool
    ensures { result ≡ not (known (pattern_of problem.now goal (of_axiom place))) }
{
    if place >= goal {
        return true;
    }
    match problem.items.get(place) {
        None => true,
        Some(item) => match item {
            Item::Axiom { vars, .. } => *vars == 0,
            Item::Goal { .. } => true,
        },
    }
}

/// Whether none is.
#[tactic(auto, using(crate::proofs::FirstTests::one_item))]
pub fn none_generic(problem: &Problem, goal: usize) -> bool
    ensures { result ≡ spec.none_generic problem.now goal (length problem.now.items) }
{
    for place in 0..problem.items.len() {
        if !is_plain(problem, goal, place) {
            return false;
        }
    }
    true
}
