//! The lines of an instance.
ghost use Rattle.std.specs.Prelude.{◌≡◌, IfOk, MatchOption, None};
ghost use Rattle.ae_core.specs.declared.proofs.ClauseLine.TheVariants.{Hyp, Inst};
ghost use Rattle.ae_journal.specs.declared.lines.Line.TheVariants.{TypeInstance, TermInstance};
ghost use Rattle.ae_rules.specs.Derivations.{conclusion as concluded};
ghost use Rattle.ae_instance_lines.specs.Stated.{IsLineOfSorts, IsLineOfTerms};

use ae_calc::clause_lines::conclusion;
use ae_core::copies::{copy_formula, copy_sorts, copy_terms};
use ae_core::formulas::{Clause, Formula};
use ae_core::lists::Boxed;
use ae_core::problems::Problem;
use ae_core::proofs::ClauseLine;
use ae_core::terms::{Sort, Term};
use ae_journal::lines::Line;
use std::alloc::{AllocError, Global};

/// A line of a journal that notes an instance, with the line of a proof that states its clause, and the clause.
#[derive(Drop)]
pub struct InstanceLine {
    pub own: Boxed<Line>,
    pub statement: Boxed<ClauseLine>,
    pub clause: Clause,
}

/// The line of a proof for an axiom with sorts put for its type variables.
fn sorts_statement(
    alloc: Global,
    place: usize,
    sorts: &[Sort],
) -> Result<Boxed<ClauseLine>, AllocError>
    ensures { IfOk result (λ l. l ≡ Hyp place sorts.now) }
{
    let sorts = copy_sorts(alloc, sorts)?;
    Boxed::new(
        alloc,
        ClauseLine::Hyp {
            axiom: place,
            sorts,
        },
    )
}

/// The line of a journal for an axiom with sorts put for its type variables.
fn sorts_own(alloc: Global, place: usize, sorts: &[Sort]) -> Result<Boxed<Line>, AllocError>
    ensures { IfOk result (λ l. l ≡ TypeInstance place sorts.now) }
{
    let sorts = copy_sorts(alloc, sorts)?;
    Boxed::new(
        alloc,
        Line::TypeInstance {
            axiom: place,
            sorts,
        },
    )
}

/// The line of a proof for a block with terms put for its variables.
fn terms_statement(
    alloc: Global,
    formula: &Formula,
    terms: &[Term],
) -> Result<Boxed<ClauseLine>, AllocError>
    ensures { IfOk result (λ l. l ≡ Inst formula.now terms.now) }
{
    let terms = copy_terms(alloc, terms)?;
    Boxed::new(
        alloc,
        ClauseLine::Inst {
            formula: copy_formula(alloc, formula)?,
            terms,
        },
    )
}

/// The line of a journal for a block with terms put for its variables.
fn terms_own(alloc: Global, formula: &Formula, terms: &[Term]) -> Result<Boxed<Line>, AllocError>
    ensures { IfOk result (λ l. l ≡ TermInstance formula.now terms.now) }
{
    let terms = copy_terms(alloc, terms)?;
    Boxed::new(
        alloc,
        Line::TermInstance {
            formula: copy_formula(alloc, formula)?,
            terms,
        },
    )
}

/// The line that notes the axiom at a place with sorts put for its type variables, for the goal at a place. `None` exactly where no such clause fits the
/// problem: the item isn't an axiom before the goal, or the sorts are not closed ones, one for each type variable.
pub fn sorts_line(
    alloc: Global,
    problem: &Problem,
    goal: usize,
    place: usize,
    sorts: &[Sort],
) -> Result<Option<InstanceLine>, AllocError>
    ensures { IfOk result (λ o. MatchOption o (concluded problem.now goal (Hyp place sorts.now) ≡ None) (IsLineOfSorts problem.now goal place sorts.now)) }
{
    let statement = sorts_statement(alloc, place, sorts)?;
    match conclusion(alloc, problem, goal, statement.get())? {
        None => Ok(None),
        Some(clause) => Ok(Some(InstanceLine {
            own: sorts_own(alloc, place, sorts)?,
            statement,
            clause,
        })),
    }
}

/// The line that notes a block with terms put for its variables. `None` exactly where no such clause fits the problem: the formula isn't a closed
/// block, or the terms are not closed ones of the variables' sorts.
pub fn terms_line(
    alloc: Global,
    problem: &Problem,
    goal: usize,
    formula: &Formula,
    terms: &[Term],
) -> Result<Option<InstanceLine>, AllocError>
    ensures { IfOk result (λ o. MatchOption o (concluded problem.now goal (Inst formula.now terms.now) ≡ None) (IsLineOfTerms problem.now goal formula.now terms.now)) }
{
    let statement = terms_statement(alloc, formula, terms)?;
    match conclusion(alloc, problem, goal, statement.get())? {
        None => Ok(None),
        Some(clause) => Ok(Some(InstanceLine {
            own: terms_own(alloc, formula, terms)?,
            statement,
            clause,
        })),
    }
}
