//! Atoms, from which the `if`s of their terms are taken out.

ghost use Rattle.std.specs.Prelude.{◌≡◌, List, map, IfOk};
ghost use Rattle.ae_core.specs.declared.terms.Term.{Term};
ghost use Rattle.ae_elab.specs.Elaboration as rule;
ghost use Rattle.ae_elab.specs.Elaboration.{◌|>◌, leaf, formula_of, related};
ghost use Rattle.ae_elab.specs.Nodes.{relation_of};
ghost use Rattle.ae_lifting.specs.declared.cases.Atom.{Atom};
ghost use Rattle.ae_lifting.specs.declared.cases.Atom.TheVariants as said;
ghost use Rattle.ae_lifting.specs.Lifting.{cases_of, said_of};
ghost use Rattle.ae_translation.specs.Listed.{listed};
ghost use Rattle.ae_types.specs.Bound.{bound};
ghost use Rattle.ae_types.specs.Substitutions.{put};

use crate::answers::both;
use crate::sorts::put_all;
use ae_core::formulas::Formula;
use ae_core::lists::Boxed;
use ae_core::terms::Sort;
use ae_elab::nodes::Relation;
use ae_lifting::cases::{Atom, Cases, compared, lifted};
use ae_types::Bindings;
use std::alloc::{AllocError, Global};

/// A predicate's application.
pub fn predicate(
    alloc: Global,
    bindings: &Bindings,
    symbol: usize,
    sorts: &[Sort],
) -> Result<Atom, AllocError>
    ensures { IfOk result (λ a. a ≡ said.Predicate symbol (map (put (bound bindings.now)) sorts.now)) }
{
    let sorts = put_all(alloc, bindings, sorts)?;
    Ok(Atom::Predicate { symbol, sorts })
}

/// An atom of terms.
#[inline(never)]
pub fn said(
    alloc: Global,
    terms: Result<Boxed<Cases>, AllocError>,
    atom: Result<Atom, AllocError>,
) -> Result<Boxed<Formula>, AllocError>
    ensures { (x : rule.Cases (List Term)) (a : Atom) → IfOk terms (λ cs. cases_of cs ≡ x) → IfOk atom (λ b. b ≡ a)
        → IfOk result (λ f. f ≡ formula_of (x |> λ us. leaf (said_of a us))) }
{
    let (terms, atom) = both(terms, atom)?;
    let cases = terms.into_inner();
    let formula = lifted(alloc, cases, &atom)?;
    Boxed::new(alloc, formula)
}

/// A relation between two terms.
#[inline(never)]
pub fn between(
    alloc: Global,
    relation: Relation,
    left: Result<Boxed<Cases>, AllocError>,
    right: Result<Boxed<Cases>, AllocError>,
) -> Result<Boxed<Formula>, AllocError>
    ensures { (x y : rule.Cases Term) → IfOk left (λ cs. cases_of cs ≡ listed x) → IfOk right (λ cs. cases_of cs ≡ listed y)
        → IfOk result (λ f. f ≡ formula_of (x |> λ u. y |> λ v. leaf (related (relation_of relation) u v))) }
{
    let (left, right) = both(left, right)?;
    let first = left.into_inner();
    let second = right.into_inner();
    let formula = compared(alloc, relation, first, second)?;
    Boxed::new(alloc, formula)
}
