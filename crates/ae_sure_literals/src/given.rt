//! The clauses that are given: those of the hypotheses without type variables, of the goal's negation, of instance lines, and what was learnt.
ghost use Rattle.std.specs.Prelude.{◌≡◌, ◌++◌, length, IfOk, OnOk};
ghost use Rattle.std.specs.List.{flat_map};
ghost use Rattle.ae_core.specs.declared.proofs.ClauseLine.TheVariants.{Goal, Hyp, Inst};
ghost use Rattle.ae_rules.specs.Derivations.{clause_of, conclusion as concluded};
ghost use Rattle.ae_sure_literals.specs.Inner.Given.{given_in, hypotheses_before, line_clauses, listed};

use ae_calc::clause_lines::conclusion;
use ae_calc::instances::{hypothesis_clause, literal_clause};
use ae_core::copies::{copy_clause, copy_formula, copy_sorts, copy_terms};
use ae_core::formulas::{Clause, Formula};
use ae_core::lists::{Boxed, List, at};
use ae_core::problems::{Item, Problem};
use ae_core::proofs::ClauseLine;
use ae_core::terms::{Sort, Term};
use ae_journal::lines::Line;
use std::alloc::{AllocError, Global};

/// Adds a clause, where there is one.
fn add_clause(given: &mut List<Clause>, clause: Option<Clause>) -> Result<(), AllocError>
    ensures { OnOk result (given.new ≡ given.old ++ listed clause) }
{
    match clause {
        None => Ok(()),
        Some(clause) => given.push(clause),
    }
}

/// Adds the clauses of the hypotheses.
fn add_hypotheses(
    alloc: Global,
    problem: &Problem,
    goal: usize,
    given: &mut List<Clause>,
) -> Result<(), AllocError>
    ensures { OnOk result (given.new ≡ given.old ++ hypotheses_before problem.now goal (length problem.now.items)) }
{
    for place in 0..problem.items.len() {
        let clause = hypothesis_clause(alloc, problem, goal, place, &[])?;
        add_clause(given, clause)?;
    }
    Ok(())
}

/// The clause of the goal's negation, if a goal stands at the place.
fn goal_clause(alloc: Global, problem: &Problem, goal: usize) -> Result<Option<Clause>, AllocError>
    ensures { IfOk result (λ c. c ≡ clause_of problem.now goal Goal) }
{
    match at(problem.items.as_slice(), goal) {
        None => Ok(None),
        Some(item) => match item {
            Item::Axiom { .. } => Ok(None),
            Item::Goal { body, .. } => Ok(Some(literal_clause(alloc, false, body)?)),
        },
    }
}

/// The line of a proof for an axiom with sorts put for its type variables.
fn sorts_statement(
    alloc: Global,
    place: usize,
    sorts: &[Sort],
) -> Result<Boxed<ClauseLine>, AllocError>
    ensures { IfOk result (λ l. l ≡ Hyp place sorts.now) }
{
    let sorts = copy_sorts(alloc, sorts)?;
    Boxed::new(
        alloc,
        ClauseLine::Hyp {
            axiom: place,
            sorts,
        },
    )
}

/// The line of a proof for a block with terms put for its variables.
fn terms_statement(
    alloc: Global,
    formula: &Formula,
    terms: &[Term],
) -> Result<Boxed<ClauseLine>, AllocError>
    ensures { IfOk result (λ l. l ≡ Inst formula.now terms.now) }
{
    let terms = copy_terms(alloc, terms)?;
    Boxed::new(
        alloc,
        ClauseLine::Inst {
            formula: copy_formula(alloc, formula)?,
            terms,
        },
    )
}

/// The clause of an axiom with sorts put for its type variables.
fn sorts_clause(
    alloc: Global,
    problem: &Problem,
    goal: usize,
    place: usize,
    sorts: &[Sort],
) -> Result<Option<Clause>, AllocError>
    ensures { IfOk result (λ c. c ≡ concluded problem.now goal (Hyp place sorts.now)) }
{
    let statement = sorts_statement(alloc, place, sorts)?;
    conclusion(alloc, problem, goal, statement.get())
}

/// The clause of a block with terms put for its variables.
fn terms_clause(
    alloc: Global,
    problem: &Problem,
    goal: usize,
    formula: &Formula,
    terms: &[Term],
) -> Result<Option<Clause>, AllocError>
    ensures { IfOk result (λ c. c ≡ concluded problem.now goal (Inst formula.now terms.now)) }
{
    let statement = terms_statement(alloc, formula, terms)?;
    conclusion(alloc, problem, goal, statement.get())
}

/// The clause that a line brings, if it brings one.
fn line_clause(
    alloc: Global,
    problem: &Problem,
    goal: usize,
    line: &Line,
) -> Result<Option<Clause>, AllocError>
    ensures { IfOk result (λ c. listed c ≡ line_clauses problem.now goal line.now) }
{
    match line {
        Line::Learn(clause) => Ok(Some(copy_clause(alloc, clause.as_slice())?)),
        Line::TypeInstance { axiom, sorts } => {
            sorts_clause(alloc, problem, goal, *axiom, sorts.as_slice())
        }
        Line::TermInstance { formula, terms } => {
            terms_clause(alloc, problem, goal, formula, terms.as_slice())
        }
        Line::Decide(_) => Ok(None),
        Line::Orient(_) => Ok(None),
        Line::Drop(_) => Ok(None),
        Line::Pair { .. } => Ok(None),
        Line::Combine { .. } => Ok(None),
        Line::Back(_) => Ok(None),
    }
}

/// Adds the clauses that lines bring.
fn add_lines(
    alloc: Global,
    problem: &Problem,
    goal: usize,
    lines: &[Line],
    given: &mut List<Clause>,
) -> Result<(), AllocError>
    ensures { OnOk result (given.new ≡ given.old ++ flat_map (line_clauses problem.now goal) lines.now) }
{
    for line in lines {
        let clause = line_clause(alloc, problem, goal, line)?;
        add_clause(given, clause)?;
    }
    Ok(())
}

/// The given clauses of a journal's lines, for a problem and the place of its goal.
pub(crate) fn given_clauses(
    alloc: Global,
    problem: &Problem,
    goal: usize,
    lines: &[Line],
) -> Result<List<Clause>, AllocError>
    ensures { IfOk result (λ cs. cs ≡ given_in problem.now goal lines.now) }
{
    let mut given = List::new(alloc);
    add_hypotheses(alloc, problem, goal, &mut given)?;
    let of_goal = goal_clause(alloc, problem, goal)?;
    add_clause(&mut given, of_goal)?;
    add_lines(alloc, problem, goal, lines, &mut given)?;
    Ok(given)
}
