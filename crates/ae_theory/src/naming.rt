//! What a literal says of the names of its terms.
ghost use Rattle.std.specs.Prelude.{◌≡◌, ◌<◌, ◌⊎◌, ℕ, length, slice_get, Some, IfOk, IsTrue};
ghost use Rattle.std.specs.Option.{IfSome};
ghost use Rattle.ae_core.specs.declared.terms.Sort.{Sort};
ghost use Rattle.ae_core.specs.declared.terms.Term.{Term};
ghost use Rattle.ae_core.specs.Sorts.{sort_of};
ghost use Rattle.ae_theory.specs.Names.{terms_in};
ghost use Rattle.ae_theory.specs.Classes.{IsEdgeOf};

use crate::nodes::Edge;
use ae_core::equality::same_term;
use ae_core::formulas::{Formula, Lit};
use ae_core::sorts::is_sort;
use ae_core::terms::{Sort, Term};
use ae_store::store::Store;
use std::alloc::AllocError;

/// The name of a term, in time linear in the store.
pub fn name_of(store: &Store, term: &Term) -> Result<Option<usize>, AllocError>
    ensures { IfOk result (λ r. IfSome r (λ n. (n < length store.now.nodes) × (slice_get (terms_in store.now) n ≡ Some term.now))) }
{
    for name in 0..store.len() {
        if same_term(&store.term(name)?, term) {
            return Ok(Some(name));
        }
    }
    Ok(None)
}

/// Whether the terms of two names are of one sort other than `bool`.
fn are_of_one_sort(store: &Store, left: usize, right: usize) -> bool
    requires left { left < length store.now.nodes }
    requires right { right < length store.now.nodes }
    ensures { IsTrue result → (s : Sort) × ((n : ℕ) (t : Term) → (n ≡ left) ⊎ (n ≡ right) → slice_get (terms_in store.now) n ≡ Some t → sort_of store.now.signature t ≡ Some s) }
{
    let sort = &store.node(left).sort;
    !is_sort(sort, &Sort::Bool) && is_sort(sort, &store.node(right).sort)
}

/// What a literal says of names: an equation between terms of one sort other than `bool` makes their names the same, and its negation says that they differ.
pub fn edge_of(store: &Store, lit: &Lit) -> Result<Edge, AllocError>
    ensures { IfOk result (λ e. IsEdgeOf store.now lit.now e) }
{
    let Formula::Eq { left, right } = &lit.formula else {
        return Ok(Edge::Other);
    };
    let Some(left) = name_of(store, left)? else {
        return Ok(Edge::Other);
    };
    let Some(right) = name_of(store, right)? else {
        return Ok(Edge::Other);
    };
    if !are_of_one_sort(store, left, right) {
        return Ok(Edge::Other);
    }
    if lit.positive {
        Ok(Edge::Same { left, right })
    } else {
        Ok(Edge::Apart { left, right })
    }
}
