//! The lines that a search begins with.
ghost use Rattle.std.specs.Prelude.{◌≡◌, ◌<◌, ◌+◌, ◌^◌, ◌∷◌, ◌++◌, [], ℕ, length, Some, IfOk, OnOk};
ghost use Rattle.ae_core.specs.Signatures.{IsLawfulProblem};
ghost use Rattle.ae_core.specs.declared.formulas.Formula.{All, out-Formula};
ghost use Rattle.ae_core.specs.declared.formulas.Quant.{Quant as QuantOf};
ghost use Rattle.ae_core.specs.declared.proofs.ClauseLine.TheVariants.{Hyp, Fresh, Goal as GoalLine};
ghost use Rattle.ae_first_clauses.specs.First.{AreFirst};
ghost use Rattle.ae_first_clauses.specs.Inner.Begun.{IsAdded, IsBegun, HasGoal, is_forall};
ghost use Rattle.ae_rules.specs.Clauses.{no_of};
ghost use Rattle.ae_rules.specs.Derivations.{goal_body};
ghost use Rattle.ae_rules.specs.Instances.{block_sorts};

use ae_calc::instances::{fresh_clause, hypothesis_clause, literal_clause};
use ae_core::copies::copy_formula;
use ae_core::formulas::{Clause, Formula};
use ae_core::lists::{List, at};
use ae_core::problems::{Item, Problem};
use ae_core::proofs::ClauseLine;
use std::alloc::{AllocError, Global};

/// The lines that a search for a goal begins with, and the clause that each of them states, in the same order.
#[derive(Drop)]
pub struct FirstClauses {
    pub lines: Vec<ClauseLine>,
    pub clauses: List<Clause>,
}

/// Puts a line behind the others.
fn push_line(lines: &mut Vec<ClauseLine>, line: ClauseLine) -> Result<(), AllocError>
    ensures { OnOk result (lines.new.items ≡ lines.old.items ++ line ∷ []) }
{
    match lines.push(line) {
        Ok(()) => Ok(()),
        Err(failed) => Err(AllocError::from(failed)),
    }
}

/// Puts a line with its clause behind the others. `Err` where there is no memory.
pub fn keep_line(
    first: &mut FirstClauses,
    line: ClauseLine,
    clause: Clause,
) -> Result<(), AllocError>
    ensures { OnOk result ((first.new.lines.items ≡ first.old.lines.items ++ line ∷ []) × (first.new.clauses ≡ first.old.clauses ++ clause ∷ [])) }
{
    push_line(&mut first.lines, line)?;
    first.clauses.push(clause)
}

/// The line of a hypothesis.
fn hypothesis_line(alloc: Global, place: usize) -> ClauseLine
    ensures { result ≡ Hyp place [] }
{
    ClauseLine::Hyp {
        axiom: place,
        sorts: List::new(alloc),
    }
}

/// Adds a hypothesis, if there is one at the place.
fn add_hypothesis(
    alloc: Global,
    problem: &Problem,
    goal: usize,
    first: &mut FirstClauses,
    place: usize,
) -> Result<(), AllocError>
    requires lawful { IsLawfulProblem problem.now }
    ensures { OnOk result (IsAdded problem.now goal (Hyp place []) first.old.lines.items first.old.clauses first.new.lines.items first.new.clauses) }
{
    match hypothesis_clause(alloc, problem, goal, place, &[])? {
        None => Ok(()),
        Some(clause) => keep_line(first, hypothesis_line(alloc, place), clause),
    }
}

/// Adds the hypotheses.
fn add_hypotheses(
    alloc: Global,
    problem: &Problem,
    goal: usize,
    first: &mut FirstClauses,
) -> Result<(), AllocError>
    requires lawful { IsLawfulProblem problem.now }
    requires begun { IsBegun problem.now goal 0 first.old.lines.items first.old.clauses }
    ensures begun { OnOk result (IsBegun problem.now goal goal first.new.lines.items first.new.clauses) }
{
    for place in 0..goal {
        add_hypothesis(alloc, problem, goal, first, place)?;
    }
    Ok(())
}

/// The variables of a block are counted by a number of 64 bits.
fn count_variables(formula: &Formula)
    ensures { length (block_sorts (out-Formula formula.now)) < 2 ^ 64 }
{
    match formula {
        Formula::All(quant) => {
            let _count = quant.sorts.len();
        }
        Formula::Ex(quant) => {
            let _count = quant.sorts.len();
        }
        _ => {}
    }
}

/// Adds the goal's negation.
fn add_goal(alloc: Global, first: &mut FirstClauses, body: &Formula) -> Result<(), AllocError>
    ensures { OnOk result ((first.new.lines.items ≡ first.old.lines.items ++ GoalLine ∷ []) × (first.new.clauses ≡ first.old.clauses ++ (no_of body.now ∷ []) ∷ [])) }
{
    let clause = literal_clause(alloc, false, body)?;
    keep_line(first, ClauseLine::Goal, clause)
}

/// Adds the body of a goal that is a block, with constants for its variables.
fn add_fresh(
    alloc: Global,
    problem: &Problem,
    goal: usize,
    first: &mut FirstClauses,
    body: &Formula,
) -> Result<(), AllocError>
    requires lawful { IsLawfulProblem problem.now }
    requires is { goal_body problem.now goal ≡ Some body.now }
    requires block { (q : QuantOf) × (body.now ≡ All q) }
    requires begun { HasGoal problem.now goal first.old.lines.items first.old.clauses }
    ensures first { OnOk result (AreFirst problem.now goal first.new.lines.items first.new.clauses) }
{
    count_variables(body);
    match fresh_clause(alloc, body, 0)? {
        None => Ok(()),
        Some(clause) => {
            let formula = copy_formula(alloc, body)?;
            keep_line(first, ClauseLine::Fresh { formula, first: 0 }, clause)
        }
    }
}

/// Whether a formula is a `forall` block.
fn is_block(formula: &Formula) -> bool
    ensures { result ≡ is_forall (out-Formula formula.now) }
{
    match formula {
        Formula::All(_) => true,
        _ => false,
    }
}

/// Adds the body of a goal, where it is a block.
fn add_block(
    alloc: Global,
    problem: &Problem,
    goal: usize,
    first: &mut FirstClauses,
    body: &Formula,
) -> Result<(), AllocError>
    requires lawful { IsLawfulProblem problem.now }
    requires is { goal_body problem.now goal ≡ Some body.now }
    requires begun { HasGoal problem.now goal first.old.lines.items first.old.clauses }
    ensures first { OnOk result (AreFirst problem.now goal first.new.lines.items first.new.clauses) }
{
    if is_block(body) {
        add_fresh(alloc, problem, goal, first, body)
    } else {
        Ok(())
    }
}

/// Adds the goal's negation, and where the goal is a block, its body.
fn add_both(
    alloc: Global,
    problem: &Problem,
    goal: usize,
    first: &mut FirstClauses,
    body: &Formula,
) -> Result<(), AllocError>
    requires lawful { IsLawfulProblem problem.now }
    requires is { goal_body problem.now goal ≡ Some body.now }
    requires begun { IsBegun problem.now goal goal first.old.lines.items first.old.clauses }
    ensures first { OnOk result (AreFirst problem.now goal first.new.lines.items first.new.clauses) }
{
    add_goal(alloc, first, body)?;
    add_block(alloc, problem, goal, first, body)
}

/// Adds what the goal gives.
fn add_goal_lines(
    alloc: Global,
    problem: &Problem,
    goal: usize,
    first: &mut FirstClauses,
) -> Result<(), AllocError>
    requires lawful { IsLawfulProblem problem.now }
    requires begun { IsBegun problem.now goal goal first.old.lines.items first.old.clauses }
    ensures first { OnOk result (AreFirst problem.now goal first.new.lines.items first.new.clauses) }
{
    match at(problem.items.as_slice(), goal) {
        None => Ok(()),
        Some(item) => match item {
            Item::Axiom { .. } => Ok(()),
            Item::Goal { body, .. } => add_both(alloc, problem, goal, first, body),
        },
    }
}

/// The lines that a search for a goal begins with, and their clauses: the hypotheses without type variables, the goal's negation, and where the goal is a
/// `forall` block, its body with constants for its variables. `Err` where there is no memory.
pub fn begin(alloc: Global, problem: &Problem, goal: usize) -> Result<FirstClauses, AllocError>
    requires lawful { IsLawfulProblem problem.now }
    ensures first { IfOk result (λ first. AreFirst problem.now goal first.lines.items first.clauses) }
{
    let mut first = FirstClauses {
        lines: Vec::new(alloc),
        clauses: List::new(alloc),
    };
    add_hypotheses(alloc, problem, goal, &mut first)?;
    add_goal_lines(alloc, problem, goal, &mut first)?;
    Ok(first)
}
