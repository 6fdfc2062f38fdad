//! Clause lines: what each states, and whether it is allowed after earlier ones.
ghost use Rattle.std.specs.Prelude.{◌≡◌, ◌↔◌, ◌&&◌, IfOk, IfErr, OnOk, IsTrue};
ghost use Rattle.std.specs.List.{list_all};
ghost use Rattle.ae_rules.specs.Derivations as spec;
ghost use Rattle.ae_rules.specs.Instances as stated;
ghost use Rattle.ae_core.specs.Sorts as sorted;
ghost use Rattle.ae_core.specs.declared.proofs.ClauseLine.TheVariants.{Hyp, Goal};
ghost use Rattle.ae_num.specs.Forms.{IfWide};
ghost use Rattle.ae_calc.specs.Reached.{Fit, FirstWide, LineReaches};

use crate::enumerations::{exhaustion, trichotomy};
use crate::fresh::are_new;
use crate::instances::{
    fresh_clause, hypothesis, hypothesis_clause, instance_clause, literal_clause,
};
use crate::lines::block_allowed;
use crate::propagation::refutes;
use ae_core::copies::copy_clause;
use ae_core::formulas::{Clause, Formula, Lit};
use ae_core::lists::{List, at};
use ae_core::problems::{Item, Problem, Signature};
use ae_core::proofs::ClauseLine;
use ae_core::sorts::{are_closed_sorts, formula_ok, sort_of};
use ae_core::terms::{Sort, Term};
use ae_num::numbers::NumFail;
use ae_rules::literals::opposites;
use ae_rules::rows::row;
use std::alloc::{AllocError, Global};

/// Whether each formula of a clause is closed and well sorted.
pub fn clause_ok(alloc: Global, signature: &Signature, clause: &[Lit]) -> Result<bool, AllocError>
    ensures { IfOk result (λ b. b ≡ spec.clause_ok signature.now clause.now) }
{
    for lit in clause {
        if !formula_ok(alloc, signature, &lit.formula)? {
            return Ok(false);
        }
    }
    Ok(true)
}

/// The clause of the line `goal`: the goal is false. There is none where no goal stands at that place.
fn goal_clause(alloc: Global, problem: &Problem, goal: usize) -> Result<Option<Clause>, AllocError>
    ensures { IfOk result (λ c. c ≡ spec.clause_of problem.now goal Goal) }
{
    match at(problem.items.as_slice(), goal) {
        None => Ok(None),
        Some(item) => match item {
            Item::Axiom { .. } => Ok(None),
            Item::Goal { body, .. } => Ok(Some(literal_clause(alloc, false, body)?)),
        },
    }
}

/// The clause that a line is written to state, whether it fits the problem or not.
fn clause_of(
    alloc: Global,
    problem: &Problem,
    goal: usize,
    line: &ClauseLine,
) -> Result<Option<Clause>, AllocError>
    ensures { IfOk result (λ c. c ≡ spec.clause_of problem.now goal line.now) }
{
    let signature = &problem.signature;
    match line {
        ClauseLine::Hyp { axiom, sorts } => {
            hypothesis_clause(alloc, problem, goal, *axiom, sorts.as_slice())
        }
        ClauseLine::Goal => goal_clause(alloc, problem, goal),
        ClauseLine::Def {
            row: number,
            formula,
        } => row(alloc, *number, formula),
        ClauseLine::Inst { formula, terms } => {
            instance_clause(alloc, signature, formula, terms.as_slice())
        }
        ClauseLine::Fresh { formula, first } => fresh_clause(alloc, formula, *first),
        ClauseLine::Exh { term } => exhaustion(alloc, signature, term),
        ClauseLine::Tri { left, right } => trichotomy(alloc, signature, left, right),
        ClauseLine::Block(block) => Ok(Some(opposites(alloc, block.deriv.hyps.as_slice())?)),
        ClauseLine::Rup { clause, .. } => Ok(Some(copy_clause(alloc, clause.as_slice())?)),
    }
}

/// Whether the goal at this place is closed and well sorted; it isn't where no goal stands there.
fn goal_ok(alloc: Global, problem: &Problem, goal: usize) -> Result<bool, AllocError>
    ensures { IfOk result (λ b. b ≡ spec.line_ok problem.now goal Goal) }
{
    match at(problem.items.as_slice(), goal) {
        None => Ok(false),
        Some(item) => match item {
            Item::Axiom { .. } => Ok(false),
            Item::Goal { body, .. } => formula_ok(alloc, &problem.signature, body),
        },
    }
}

/// Whether the sorts put are closed, and the axiom with them is there, closed and well sorted.
fn hypothesis_ok(
    alloc: Global,
    problem: &Problem,
    goal: usize,
    place: usize,
    sorts: &[Sort],
) -> Result<bool, AllocError>
    ensures { IfOk result (λ b. b ≡ spec.line_ok problem.now goal (Hyp place sorts.now)) }
{
    if !are_closed_sorts(&problem.signature, sorts) {
        return Ok(false);
    }
    match hypothesis(alloc, problem, goal, place, sorts)? {
        None => Ok(false),
        Some(formula) => formula_ok(alloc, &problem.signature, formula.get()),
    }
}

/// Whether a term is closed and well sorted.
fn term_ok(alloc: Global, signature: &Signature, term: &Term) -> Result<bool, AllocError>
    ensures { IfOk result (λ b. b ≡ sorted.term_ok signature.now term.now) }
{
    Ok(sort_of(alloc, signature, term)?.is_some())
}

/// Whether each of the terms is closed and well sorted.
fn terms_ok(alloc: Global, signature: &Signature, terms: &[Term]) -> Result<bool, AllocError>
    ensures { IfOk result (λ b. b ≡ list_all (sorted.term_ok signature.now) terms.now) }
{
    for term in terms {
        if !term_ok(alloc, signature, term)? {
            return Ok(false);
        }
    }
    Ok(true)
}

/// Whether a term is closed and well sorted, and so is what an enumeration's line states of it.
fn exhaustion_ok(alloc: Global, signature: &Signature, term: &Term) -> Result<bool, AllocError>
    ensures { IfOk result (λ b. b ≡ (sorted.term_ok signature.now term.now && spec.clause_stands signature.now (stated.exhaustion signature.now term.now))) }
{
    if !term_ok(alloc, signature, term)? {
        return Ok(false);
    }
    match exhaustion(alloc, signature, term)? {
        None => Ok(false),
        Some(clause) => clause_ok(alloc, signature, clause.as_slice()),
    }
}

/// Whether each formula, term and sort that a line states or is given is closed and well sorted.
fn line_ok(
    alloc: Global,
    problem: &Problem,
    goal: usize,
    line: &ClauseLine,
) -> Result<bool, AllocError>
    ensures { IfOk result (λ b. b ≡ spec.line_ok problem.now goal line.now) }
{
    let signature = &problem.signature;
    match line {
        ClauseLine::Hyp { axiom, sorts } => {
            hypothesis_ok(alloc, problem, goal, *axiom, sorts.as_slice())
        }
        ClauseLine::Goal => goal_ok(alloc, problem, goal),
        ClauseLine::Def { formula, .. } => formula_ok(alloc, signature, formula),
        ClauseLine::Inst { formula, terms } => Ok(
            formula_ok(alloc, signature, formula)? && terms_ok(alloc, signature, terms.as_slice())?,
        ),
        ClauseLine::Fresh { formula, .. } => formula_ok(alloc, signature, formula),
        ClauseLine::Exh { term } => exhaustion_ok(alloc, signature, term),
        ClauseLine::Tri { left, right } => {
            Ok(term_ok(alloc, signature, left)? && term_ok(alloc, signature, right)?)
        }
        ClauseLine::Block(block) => clause_ok(alloc, signature, block.deriv.hyps.as_slice()),
        ClauseLine::Rup { clause, .. } => clause_ok(alloc, signature, clause.as_slice()),
    }
}

/// The clause that a line states, for the goal at place `goal` among the items.
///
/// There is none exactly where the line doesn't fit the problem: a number, a sort or an arity in a formula or term of the clause, or in what
/// the line is given, as the hypotheses of a block, and the terms and sorts that are put. What the derived lines of a block state doesn't count.
pub fn conclusion(
    alloc: Global,
    problem: &Problem,
    goal: usize,
    line: &ClauseLine,
) -> Result<Option<Clause>, AllocError>
    ensures { IfOk result (λ c. c ≡ spec.conclusion problem.now goal line.now) }
{
    if !line_ok(alloc, problem, goal, line)? {
        return Ok(None);
    }
    clause_of(alloc, problem, goal, line)
}

/// Whether a line states a clause.
fn has_conclusion(
    alloc: Global,
    problem: &Problem,
    goal: usize,
    line: &ClauseLine,
) -> Result<bool, AllocError>
    ensures { IfOk result (λ b. IsTrue b ↔ spec.HasConclusion problem.now goal line.now) }
{
    match conclusion(alloc, problem, goal, line)? {
        None => Ok(false),
        Some(_) => Ok(true),
    }
}

/// The clause that the earlier line of this number states.
pub fn stated_by(
    alloc: Global,
    problem: &Problem,
    goal: usize,
    earlier: &[ClauseLine],
    number: usize,
) -> Result<Option<Clause>, AllocError>
    ensures { IfOk result (λ c. c ≡ spec.stated_by problem.now goal earlier.now number) }
{
    match at(earlier, number) {
        None => Ok(None),
        Some(line) => conclusion(alloc, problem, goal, line),
    }
}

/// The clauses of the hinted earlier lines in the order of the hints, where each hint has one.
#[tactic(auto, using(ae_base::proofs::Options::known_step, ae_base::proofs::Options::known_stop))]
pub fn hinted(
    alloc: Global,
    problem: &Problem,
    goal: usize,
    earlier: &[ClauseLine],
    hints: &[usize],
) -> Result<Option<List<Clause>>, AllocError>
    ensures { IfOk result (λ cs. cs ≡ spec.hinted problem.now goal earlier.now hints.now) }
{
    let mut found = List::new(alloc);
    for hint in hints {
        match stated_by(alloc, problem, goal, earlier, *hint)? {
            None => return Ok(None),
            Some(clause) => found.push(clause)?,
        }
    }
    Ok(Some(found))
}

/// Whether unit propagation through the hinted earlier lines, in the order of the hints, refutes that a clause is false.
pub fn is_refuted(
    alloc: Global,
    problem: &Problem,
    goal: usize,
    earlier: &[ClauseLine],
    clause: &[Lit],
    hints: &[usize],
) -> Result<bool, AllocError>
    ensures { IfOk result (λ b. b ≡ spec.is_refuted (spec.hinted problem.now goal earlier.now hints.now) clause.now) }
{
    match hinted(alloc, problem, goal, earlier, hints)? {
        None => Ok(false),
        Some(clauses) => refutes(alloc, clause, clauses.as_slice()),
    }
}

/// What the rule of a line that states a clause asks beside: new constants, a block that is allowed, or hints that refute.
fn meets(
    alloc: Global,
    problem: &Problem,
    goal: usize,
    earlier: &[ClauseLine],
    line: &ClauseLine,
) -> Result<bool, NumFail>
    requires stated { spec.HasConclusion problem.now goal line.now }
    ensures exact { IfOk result (λ b. IsTrue b ↔ spec.Meets problem.now goal earlier.now line.now) }
    ensures fits { OnOk result (Fit (LineReaches problem.now line.now)) }
    ensures wide { IfErr result (λ fail. IfWide fail (FirstWide (LineReaches problem.now line.now))) }
{
    match line {
        ClauseLine::Block(block) => block_allowed(alloc, &problem.signature, block),
        ClauseLine::Fresh { formula, first } => {
            Ok(are_new(alloc, problem, goal, earlier, *first, formula)?)
        }
        ClauseLine::Rup { clause, hints } => Ok(is_refuted(
            alloc,
            problem,
            goal,
            earlier,
            clause.as_slice(),
            hints.as_slice(),
        )?),
        _ => Ok(true),
    }
}

/// Whether a clause line is allowed after earlier ones, for the goal at place `goal` among the items: it states a clause, and what its rule
/// asks beside is so.
///
/// `Wide` comes exactly where a product or sum that the line states leaves the limits, with the first such pair.
pub fn allowed(
    alloc: Global,
    problem: &Problem,
    goal: usize,
    earlier: &[ClauseLine],
    line: &ClauseLine,
) -> Result<bool, NumFail>
    ensures exact { IfOk result (λ b. IsTrue b ↔ spec.IsAllowed problem.now goal earlier.now line.now) }
    ensures fits { OnOk result (Fit (LineReaches problem.now line.now)) }
    ensures wide { IfErr result (λ fail. IfWide fail (FirstWide (LineReaches problem.now line.now))) }
{
    if !has_conclusion(alloc, problem, goal, line)? {
        return Ok(false);
    }
    meets(alloc, problem, goal, earlier, line)
}
