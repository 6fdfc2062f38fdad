//! Goals in the reach.
ghost use Rattle.std.specs.Prelude.{◌≡◌, ◌↔◌, IfOk, IsTrue};
ghost use Rattle.ae_core.specs.Signatures.{IsLawful, IsLawfulProblem};
ghost use Rattle.ae_reach.specs.Reach.{IsInReach};
ghost use Rattle.ae_reach_checks.specs.Decisions as spec;

use crate::formulas::is_formula_in_reach;
use ae_base::lists::at;
use ae_core::formulas::Formula;
use ae_core::problems::{Item, Problem, Signature};
use ae_core::sorts::formula_ok;
use std::alloc::{AllocError, Global};

/// Whether a goal's formula is in the reach: of a `forall` block its body, whose variables are read as constants.
fn is_goal_in_reach(formula: &Formula) -> bool
    ensures { result ≡ spec.goal_reached formula.now }
{
    match formula {
        Formula::All(quant) => is_formula_in_reach(quant.body.get()),
        _ => is_formula_in_reach(formula),
    }
}

/// Whether an item before the goal leaves it in the reach: an earlier goal is no hypothesis.
fn is_item_in_reach(alloc: Global, signature: &Signature, item: &Item) -> Result<bool, AllocError>
    requires lawful { IsLawful signature.now }
    ensures { IfOk result (λ b. b ≡ spec.item_reached signature.now item.now) }
{
    match item {
        Item::Axiom { vars, body, .. } => {
            Ok(*vars == 0 && formula_ok(alloc, signature, body)? && is_formula_in_reach(body))
        }
        Item::Goal { .. } => Ok(true),
    }
}

/// Whether the items before the goal leave it in the reach.
fn are_items_in_reach(
    alloc: Global,
    signature: &Signature,
    items: &[Item],
    goal: usize,
) -> Result<bool, AllocError>
    requires lawful { IsLawful signature.now }
    ensures { IfOk result (λ b. IsTrue b ↔ spec.AreItemsReached signature.now items.now goal) }
{
    for place in 0..goal {
        match at(items, place) {
            None => return Ok(true),
            Some(item) => {
                if !is_item_in_reach(alloc, signature, item)? {
                    return Ok(false);
                }
            }
        }
    }
    Ok(true)
}

/// Whether the goal at a place, of this formula, is in the reach.
fn is_all_in_reach(
    alloc: Global,
    problem: &Problem,
    goal: usize,
    body: &Formula,
) -> Result<bool, AllocError>
    requires lawful { IsLawful problem.now.signature }
    ensures { IfOk result (λ b. IsTrue b ↔ spec.AreReached problem.now goal body.now) }
{
    if !formula_ok(alloc, &problem.signature, body)? {
        return Ok(false);
    }
    if !is_goal_in_reach(body) {
        return Ok(false);
    }
    are_items_in_reach(alloc, &problem.signature, problem.items.as_slice(), goal)
}

/// Whether the goal at a place of the problem is in the reach.
pub fn is_in_reach(alloc: Global, problem: &Problem, goal: usize) -> Result<bool, AllocError>
    requires lawful { IsLawfulProblem problem.now }
    ensures { IfOk result (λ b. IsTrue b ↔ IsInReach problem.now goal) }
{
    match at(problem.items.as_slice(), goal) {
        None => Ok(false),
        Some(item) => match item {
            Item::Axiom { .. } => Ok(false),
            Item::Goal { body, .. } => is_all_in_reach(alloc, problem, goal, body),
        },
    }
}
