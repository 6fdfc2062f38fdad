//! The term or the formula at a place among the nodes, out of its box.

ghost use Rattle.std.specs.Prelude.{◌≡◌, IfOk};
ghost use Rattle.ae_elab.specs.Elaboration.{formula_in, term_cases};
ghost use Rattle.ae_elab.specs.Nodes.{claim_at, entries_of, tree_at};
ghost use Rattle.ae_lifting.specs.Lifting.{cases_of};
ghost use Rattle.ae_translation.specs.Listed.{listed};
ghost use Rattle.ae_types.specs.Bound.{bound as sorts_of};

use crate::translation::{cases_boxed, formula_boxed};
use ae_core::formulas::Formula;
use ae_elab::nodes::Node;
use ae_lifting::cases::Cases;
use ae_types::Bindings;
use std::alloc::{AllocError, Global};

/// The term at a place among the nodes, in its cases: one term in each. `bindings` is the typing, and `bound` are the bound
/// variables, the innermost first.
pub fn cases_at(
    alloc: Global,
    bindings: &Bindings,
    bound: &[usize],
    nodes: &[Node],
    place: usize,
) -> Result<Cases, AllocError>
    ensures { IfOk result (λ cs. cases_of cs ≡ listed (term_cases (sorts_of bindings.now) bound.now (tree_at (entries_of nodes.now) place))) }
{
    let cases = cases_boxed(alloc, bindings, bound, nodes, place)?;
    Ok(cases.into_inner())
}

/// The formula at a place among the nodes. `bindings` is the typing, and `bound` are the bound variables, the innermost first.
pub fn formula_at(
    alloc: Global,
    bindings: &Bindings,
    bound: &[usize],
    nodes: &[Node],
    place: usize,
) -> Result<Formula, AllocError>
    ensures { IfOk result (λ f. f ≡ formula_in (sorts_of bindings.now) bound.now (claim_at (entries_of nodes.now) place)) }
{
    let formula = formula_boxed(alloc, bindings, bound, nodes, place)?;
    Ok(formula.into_inner())
}
