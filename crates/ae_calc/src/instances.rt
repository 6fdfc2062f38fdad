//! The clauses of the lines that put sorts or terms: hypotheses, instances and fresh constants.
ghost use Rattle.std.specs.Prelude.{◌≡◌, ◌∷◌, [], IfOk, ◌+◌, ◌≤◌, ◌^◌, length, not};
ghost use Rattle.ae_base.specs.Options.{when};
ghost use Rattle.ae_rules.specs.Clauses as clauses;
ghost use Rattle.ae_rules.specs.Clauses.{literal};
ghost use Rattle.ae_core.specs.Putting.{put_formula};
ghost use Rattle.ae_rules.specs.Derivations.{clause_of};
ghost use Rattle.ae_rules.specs.Instances as spec;
ghost use Rattle.ae_core.specs.declared.proofs.ClauseLine.TheVariants.{Hyp};
ghost use Rattle.ae_core.specs.declared.formulas.Formula.{out-Formula};

use ae_core::copies::copy_sort;
use ae_core::formulas::{Clause, Formula, Quant};
use ae_core::lists::{Boxed, List, at};
use ae_core::problems::{Item, Problem, Signature};
use ae_core::putting::{instance, substitute};
use ae_core::sorts::{are_sorts, sorts_in};
use ae_core::terms::{Sort, Term};
use ae_rules::literals::{literal, signed};
use std::alloc::{AllocError, Global};

/// An axiom's formula with sorts put for its type variables. There is none where their numbers differ.
pub fn axiom_with(
    alloc: Global,
    vars: usize,
    body: &Formula,
    sorts: &[Sort],
) -> Result<Option<Boxed<Formula>>, AllocError>
    ensures { IfOk result (λ f. f ≡ spec.axiom_with vars body.now sorts.now) }
{
    if sorts.len() != vars {
        return Ok(None);
    }
    Ok(Some(Boxed::new(alloc, instance(alloc, body, sorts)?)?))
}

/// The axiom at a place before that of the goal, with sorts put. There is none where no axiom stands there, as where an earlier goal does.
pub fn hypothesis(
    alloc: Global,
    problem: &Problem,
    goal: usize,
    place: usize,
    sorts: &[Sort],
) -> Result<Option<Boxed<Formula>>, AllocError>
    ensures { IfOk result (λ f. f ≡ spec.hypothesis problem.now goal place sorts.now) }
{
    if place >= goal {
        return Ok(None);
    }
    match at(problem.items.as_slice(), place) {
        None => Ok(None),
        Some(item) => match item {
            Item::Axiom { vars, body, .. } => axiom_with(alloc, *vars, body, sorts),
            Item::Goal { .. } => Ok(None),
        },
    }
}

/// The clause of a formula alone that is true, or false, by the sign.
pub fn literal_clause(alloc: Global, sign: bool, formula: &Formula) -> Result<Clause, AllocError>
    ensures { IfOk result (λ c. c ≡ literal sign formula.now ∷ []) }
{
    let mut clause = List::new(alloc);
    clause.push(literal(alloc, sign, formula)?)?;
    Ok(clause)
}

/// The clause of a hypothesis.
pub fn hypothesis_clause(
    alloc: Global,
    problem: &Problem,
    goal: usize,
    place: usize,
    sorts: &[Sort],
) -> Result<Option<Clause>, AllocError>
    ensures { IfOk result (λ c. c ≡ clause_of problem.now goal (Hyp place sorts.now)) }
{
    match hypothesis(alloc, problem, goal, place, sorts)? {
        None => Ok(None),
        Some(formula) => Ok(Some(literal_clause(alloc, true, formula.get())?)),
    }
}

/// Whether terms are closed and well sorted, one for each of the sorts, of that sort.
pub fn have_sorts(
    alloc: Global,
    signature: &Signature,
    terms: &[Term],
    sorts: &[Sort],
) -> Result<bool, AllocError>
    ensures { IfOk result (λ b. b ≡ spec.have_sorts signature.now terms.now sorts.now) }
{
    match sorts_in(alloc, signature, terms, &[])? {
        None => Ok(false),
        Some(found) => Ok(are_sorts(found.as_slice(), sorts)),
    }
}

/// The clause of a formula as it stands, true or false by the sign.
fn alone(alloc: Global, sign: bool, whole: &Formula) -> Result<Clause, AllocError>
    ensures { IfOk result (λ c. c ≡ record { positive = sign; formula = whole.now } ∷ []) }
{
    let mut clause = List::new(alloc);
    clause.push(signed(alloc, sign, whole)?)?;
    Ok(clause)
}

/// The clause of a formula as it stands and of one part, each true or false by its sign.
fn with_part(
    alloc: Global,
    sign: bool,
    whole: &Formula,
    first: bool,
    a: &Formula,
) -> Result<Clause, AllocError>
    ensures { IfOk result (λ c. c ≡ record { positive = sign; formula = whole.now } ∷ clauses.literal first a.now ∷ []) }
{
    let mut clause = alone(alloc, sign, whole)?;
    clause.push(literal(alloc, first, a)?)?;
    Ok(clause)
}

/// The clause of a block with one sign, and of its body with terms put, with the other.
pub fn put_clause(
    alloc: Global,
    sign: bool,
    whole: &Formula,
    quant: &Quant,
    terms: &[Term],
) -> Result<Clause, AllocError>
    ensures { IfOk result (λ c. c ≡ record { positive = sign; formula = whole.now } ∷ literal (not sign) (put_formula terms.now quant.now.body) ∷ []) }
{
    let body = Boxed::new(alloc, substitute(alloc, quant, terms)?)?;
    with_part(alloc, sign, whole, !sign, body.get())
}

/// The same where the terms are of the sorts of the block's variables; otherwise there is none.
pub fn fitting_clause(
    alloc: Global,
    signature: &Signature,
    sign: bool,
    whole: &Formula,
    quant: &Quant,
    terms: &[Term],
) -> Result<Option<Clause>, AllocError>
    ensures { IfOk result (λ c. c ≡ when (spec.have_sorts signature.now terms.now quant.now.sorts) (record { positive = sign; formula = whole.now } ∷ literal (not sign) (put_formula terms.now quant.now.body) ∷ [])) }
{
    if !have_sorts(alloc, signature, terms, quant.sorts.as_slice())? {
        return Ok(None);
    }
    Ok(Some(put_clause(alloc, sign, whole, quant, terms)?))
}

/// The clause of a block's instance. There is none where the terms aren't of the sorts of its variables, and where the formula is no block.
pub fn instance_clause(
    alloc: Global,
    signature: &Signature,
    formula: &Formula,
    terms: &[Term],
) -> Result<Option<Clause>, AllocError>
    ensures { IfOk result (λ c. c ≡ spec.instance_clause signature.now formula.now terms.now (out-Formula formula.now)) }
{
    match formula {
        Formula::All(quant) => fitting_clause(alloc, signature, false, formula, quant, terms),
        Formula::Ex(quant) => fitting_clause(alloc, signature, true, formula, quant, terms),
        _ => Ok(None),
    }
}

/// Whether the numbers of constants for all these sorts, counted from the first one, are below 2^64.
pub fn are_numbered(first: usize, sorts: &[Sort]) -> bool
    ensures { result ≡ spec.are_numbered first sorts.now }
{
    sorts.is_empty() || sorts.len() - 1 <= usize::MAX - first
}

/// Fresh constants of these sorts, numbered from the first one.
#[tactic(auto, using(crate::proofs::FreshTerms::count_more))]
pub fn count_from(alloc: Global, first: usize, sorts: &[Sort]) -> Result<List<Term>, AllocError>
    requires { first + length sorts.now ≤ 2 ^ 64 }
    ensures { IfOk result (λ ts. ts ≡ spec.count_from first sorts.now) }
{
    let mut constants = List::new(alloc);
    for i in 0..sorts.len() {
        constants.push(Term::Fresh {
            number: first + i,
            sort: Boxed::new(alloc, copy_sort(alloc, &sorts[i])?)?,
        })?;
    }
    Ok(constants)
}

/// The clause of a block with one sign, and of its body with fresh constants put, with the other. There is none where their numbers reach 2^64.
pub fn counted_clause(
    alloc: Global,
    sign: bool,
    whole: &Formula,
    first: usize,
    quant: &Quant,
) -> Result<Option<Clause>, AllocError>
    ensures { IfOk result (λ c. c ≡ when (spec.are_numbered first quant.now.sorts) (record { positive = sign; formula = whole.now } ∷ literal (not sign) (put_formula (spec.count_from first quant.now.sorts) quant.now.body) ∷ [])) }
{
    let sorts = quant.sorts.as_slice();
    if !are_numbered(first, sorts) {
        return Ok(None);
    }
    let constants = count_from(alloc, first, sorts)?;
    Ok(Some(put_clause(alloc, sign, whole, quant, constants.as_slice())?))
}

/// The clause of a block with fresh constants for its variables. There is none where their numbers reach 2^64, and where the formula is no block.
pub fn fresh_clause(
    alloc: Global,
    formula: &Formula,
    first: usize,
) -> Result<Option<Clause>, AllocError>
    ensures { IfOk result (λ c. c ≡ spec.fresh_clause formula.now first (out-Formula formula.now)) }
{
    match formula {
        Formula::Ex(quant) => counted_clause(alloc, false, formula, first, quant),
        Formula::All(quant) => counted_clause(alloc, true, formula, first, quant),
        _ => Ok(None),
    }
}
