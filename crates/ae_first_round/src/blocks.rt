//! The blocks that the first clauses open.
ghost use Rattle.std.specs.Prelude.{◌≡◌, ◌∷◌, [], Some, IfOk};
ghost use Rattle.ae_block_constants.specs.Blocks as blocks_spec;
ghost use Rattle.ae_core.specs.declared.formulas.Formula.{out-Formula};
ghost use Rattle.ae_first_clauses.specs.Inner.Begun.{is_forall};
ghost use Rattle.ae_first_round.specs.Inner.First.{AreFirstBlocks};
ghost use Rattle.ae_rules.specs.Derivations.{goal_body};

use ae_block_constants::Opened;
use ae_core::copies::copy_formula;
use ae_core::formulas::Formula;
use ae_core::lists::{List, at};
use ae_core::problems::{Item, Problem};
use ae_opening::OpenedBlocks;
use std::alloc::{AllocError, Global};

/// Whether a formula is a `forall` block.
fn is_block(formula: &Formula) -> bool
    ensures { result ≡ is_forall (out-Formula formula.now) }
{
    match formula {
        Formula::All(_) => true,
        _ => false,
    }
}

/// How many variables a block has.
fn variables(formula: &Formula) -> usize
    ensures { result ≡ blocks_spec.variables formula.now }
{
    match formula {
        Formula::All(quant) => quant.sorts.len(),
        Formula::Ex(quant) => quant.sorts.len(),
        _ => 0,
    }
}

/// No block.
fn none(alloc: Global) -> OpenedBlocks
    ensures opened { result.opened ≡ [] }
    ensures next { result.next ≡ 0 }
{
    OpenedBlocks {
        opened: List::new(alloc),
        next: 0,
    }
}

/// One block, with the constants from 0 on.
fn one(alloc: Global, formula: &Formula) -> Result<OpenedBlocks, AllocError>
    ensures opened { IfOk result (λ b. b.opened ≡ record { formula = formula.now; first = 0 } ∷ []) }
    ensures next { IfOk result (λ b. b.next ≡ blocks_spec.variables formula.now) }
{
    let mut blocks = none(alloc);
    blocks.next = variables(formula);
    let formula = copy_formula(alloc, formula)?;
    blocks.opened.push(Opened { formula, first: 0 })?;
    Ok(blocks)
}

/// The block of a goal, where it is one.
fn of_goal(
    alloc: Global,
    problem: &Problem,
    goal: usize,
    body: &Formula,
) -> Result<OpenedBlocks, AllocError>
    requires { goal_body problem.now goal ≡ Some body.now }
    ensures { IfOk result (λ b. AreFirstBlocks problem.now goal b.opened b.next) }
{
    if is_block(body) {
        one(alloc, body)
    } else {
        Ok(none(alloc))
    }
}

/// The blocks that the first clauses of a goal open.
pub(crate) fn first_blocks(
    alloc: Global,
    problem: &Problem,
    goal: usize,
) -> Result<OpenedBlocks, AllocError>
    ensures { IfOk result (λ b. AreFirstBlocks problem.now goal b.opened b.next) }
{
    match at(problem.items.as_slice(), goal) {
        None => Ok(none(alloc)),
        Some(item) => match item {
            Item::Axiom { .. } => Ok(none(alloc)),
            Item::Goal { body, .. } => of_goal(alloc, problem, goal, body),
        },
    }
}
