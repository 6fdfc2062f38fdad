//! What instances say.
ghost use Rattle.std.specs.Prelude.{◌≡◌, ◌<◌, ◌∷◌, [], true, Some, IfOk, length, map, slice_get};
ghost use Rattle.std.specs.List.{AllByRecursion};
ghost use Rattle.ae_between_rounds.specs.Between.{IsBetweenRounds};
ghost use Rattle.ae_between_rounds.specs.declared.search.Instance.{Instance};
ghost use Rattle.ae_core.specs.Putting.{put_formula};
ghost use Rattle.ae_core.specs.declared.formulas.Formula.{out-Formula};
ghost use Rattle.ae_journal.specs.States.{instance_literals, of_axiom};
ghost use Rattle.ae_owed_instances.specs.Inner.Saying.{axiom_literals, block_literals};
ghost use Rattle.ae_owners.specs.Owners.{owner_of};
ghost use Rattle.ae_owners.specs.declared.owners.Owner.{Owner as OwnerOf};
ghost use Rattle.ae_rules.specs.Clauses.{literal};
ghost use Rattle.ae_store.specs.Shapes.{shapes};
ghost use Rattle.ae_store.specs.Terms.{named, terms as terms_named};

use crate::asked::Asked;
use ae_between_rounds::search::Search;
use ae_calc::instances::{hypothesis, literal_clause};
use ae_core::formulas::{Formula, Lit, Quant};
use ae_core::lists::{Boxed, List};
use ae_core::putting::substitute;
use ae_core::terms::{Sort, Term};
use ae_num::forms::Name;
use ae_owners::owners::Owner;
use ae_store::store::Store;
use std::alloc::{AllocError, Global};

/// The literal of a block's body with terms put.
fn body_literals(
    alloc: Global,
    positive: bool,
    quant: &Quant,
    terms: &[Term],
) -> Result<List<Lit>, AllocError>
    ensures { IfOk result (λ ls. ls ≡ literal positive (put_formula terms.now quant.now.body) ∷ []) }
{
    let body = Boxed::new(alloc, substitute(alloc, quant, terms)?)?;
    literal_clause(alloc, positive, body.get())
}

/// What an instance of a literal says; what is no block says nothing.
fn block_said(
    alloc: Global,
    positive: bool,
    formula: &Formula,
    terms: &[Term],
) -> Result<List<Lit>, AllocError>
    ensures { IfOk result (λ ls. ls ≡ block_literals positive terms.now (out-Formula formula.now)) }
{
    match formula {
        Formula::All(quant) => body_literals(alloc, positive, quant, terms),
        Formula::Ex(quant) => body_literals(alloc, positive, quant, terms),
        _ => Ok(List::new(alloc)),
    }
}

/// A formula, and the body of its block with terms put.
fn with_body(
    alloc: Global,
    formula: &Formula,
    quant: &Quant,
    terms: &[Term],
) -> Result<List<Lit>, AllocError>
    ensures { IfOk result (λ ls. ls ≡ literal true formula.now ∷ literal true (put_formula terms.now quant.now.body) ∷ []) }
{
    let mut said = literal_clause(alloc, true, formula)?;
    let more = body_literals(alloc, true, quant, terms)?;
    said.append(more)?;
    Ok(said)
}

/// What an instance of an axiom says, with sorts put for its type variables by now.
fn formula_said(alloc: Global, formula: &Formula, terms: &[Term]) -> Result<List<Lit>, AllocError>
    ensures { IfOk result (λ ls. ls ≡ axiom_literals terms.now formula.now (out-Formula formula.now)) }
{
    match formula {
        Formula::All(quant) => with_body(alloc, formula, quant, terms),
        _ => literal_clause(alloc, true, formula),
    }
}

/// What an instance of the axiom at a place says.
fn axiom_said(
    task: Asked<'_>,
    place: usize,
    sorts: &[Sort],
    terms: &[Term],
) -> Result<List<Lit>, AllocError>
    ensures { IfOk result (λ ls. ls ≡ instance_literals task.entry.problem.now task.entry.goal (of_axiom place) sorts.now terms.now) }
{
    match hypothesis(task.alloc, task.problem, task.goal, place, sorts)? {
        None => Ok(List::new(task.alloc)),
        Some(formula) => formula_said(task.alloc, formula.get(), terms),
    }
}

/// What an owner's instance says.
fn owner_said(
    task: Asked<'_>,
    owner: &Owner,
    sorts: &[Sort],
    terms: &[Term],
) -> Result<List<Lit>, AllocError>
    ensures { IfOk result (λ ls. ls ≡ instance_literals task.entry.problem.now task.entry.goal (owner_of owner.now) sorts.now terms.now) }
{
    match owner.place {
        None => block_said(task.alloc, owner.positive, owner.formula.get(), terms),
        Some(place) => axiom_said(task, place, sorts, terms),
    }
}

/// The terms of names.
#[tactic(auto, using(ae_store::proofs::StoreLaws::name_term))]
fn terms_of(alloc: Global, store: &Store, names: &[Name]) -> Result<List<Term>, AllocError>
    requires within { AllByRecursion (λ n. n < length store.now.nodes) names.now }
    ensures { IfOk result (λ ts. ts ≡ map (named (terms_named (shapes store.now.nodes))) names.now) }
{
    let mut terms = List::new(alloc);
    for name in names {
        terms.push(store.term(*name)?)?;
    }
    Ok(terms)
}

/// The literals that the instance at a place says.
pub(crate) fn said(task: Asked<'_>, search: &Search, place: usize) -> Result<List<Lit>, AllocError>
    requires between { IsBetweenRounds task.problem.now task.goal task.generations search.now }
    requires within { place < length search.now.instances.made }
    ensures { IfOk result (λ ls. (i : Instance) (w : OwnerOf) → slice_get search.now.instances.made place ≡ Some i → slice_get search.now.owners i.owner ≡ Some w →
        ls ≡ instance_literals task.entry.problem.now task.entry.goal (owner_of w) i.subst.sorts (map (named (terms_named (shapes search.now.store.nodes))) i.subst.terms)) }
{
    let made = search.instances.made.as_slice();
    let instance = &made[place];
    let owners = search.owners.as_slice();
    let number = instance.owner;
    let owner = &owners[number];
    let names = instance.subst.terms.as_slice();
    let terms = terms_of(task.alloc, &search.store, names)?;
    let sorts = instance.subst.sorts.as_slice();
    let all = terms.as_slice();
    owner_said(task, owner, sorts, all)
}
