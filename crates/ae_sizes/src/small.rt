//! Which formulas are within the limits of a declaration.

ghost use Rattle.std.specs.Prelude.{◌≡◌, ℕ, List, [], IfOk, map};
ghost use Rattle.ae_core.specs.declared.terms.Sort as core;
ghost use Rattle.ae_elab.specs.Conditions.{shown};
ghost use Rattle.ae_elab.specs.Elaboration.{formula_in};
ghost use Rattle.ae_elab.specs.Nodes.{Entry, claim_at, entries_of};
ghost use Rattle.ae_elab.specs.Sizes as size;
ghost use Rattle.ae_sizes.specs.Inner.Counted.{counted, told};
ghost use Rattle.ae_sizes.specs.Small.{is_small_entry};
ghost use Rattle.ae_types.specs.Bound.{bound};

use crate::measures::{Measure, size_at};
use crate::node_sizes::measures;
use crate::weights::Size;
use ae_base::lists::at;
use ae_core::lists::List;
use ae_elab::nodes::Node;
use ae_types::Bindings;
use std::alloc::{AllocError, Global};

// Whether a size is within the limits of a declaration.
#[tactic(auto, using(crate::proofs::SmallLaws::within_is))]
fn is_within(whole: Size) -> bool
    ensures { (s : size.Size) → whole ≡ counted s → result ≡ size.is_within s }
{
    whole.nodes <= 1_000_000 && whole.levels <= 4000
}

// Whether the formulas that were measured are within the limits.
fn are_small(alloc: Global, measures: &[Measure]) -> Result<List<bool>, AllocError>
    ensures { IfOk result (λ bs. (m : ℕ → core.Sort) (es : List Entry) → measures.now ≡ map (told (shown m)) es → bs ≡ map (is_small_entry m) es) }
{
    let mut small = List::new(alloc);
    for place in 0..measures.len() {
        small.push(is_within(size_at(measures, place)))?;
    }
    Ok(small)
}

/// For each node, whether the formula that it is has at most 1,000,000 nodes and 4,000 levels, with the sorts put for its
/// unknowns that the bindings have for them. No formula is built: the time is linear in the nodes and in what the sorts that
/// stand in them are bound to.
pub fn small_formulas(
    alloc: Global,
    bindings: &Bindings,
    nodes: &[Node],
) -> Result<List<bool>, AllocError>
    ensures { IfOk result (λ bs. bs ≡ map (is_small_entry (bound bindings.now)) (entries_of nodes.now)) }
{
    let measures = measures(alloc, bindings, nodes)?;
    let small = are_small(alloc, measures.as_slice())?;
    Ok(small)
}

/// Whether the formula at a place is within the limits, from what was told of all.
pub fn is_small_at(small: &[bool], claim: usize) -> bool
    ensures { (m : ℕ → core.Sort) (es : List Entry) → small.now ≡ map (is_small_entry m) es → result ≡ size.is_within (size.formula_size (formula_in (shown m) [] (claim_at es claim))) }
{
    match at(small, claim) {
        Some(small) => *small,
        None => true,
    }
}
