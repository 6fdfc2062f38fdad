//! Names at which a term of a pattern may be found.
ghost use Rattle.std.specs.Prelude.{◌≡◌, IfOk};
ghost use Rattle.ae_matching.specs.Generating as generating;
ghost use Rattle.ae_match.specs.Seen.{applied, seen};
ghost use Rattle.ae_finding.specs.Nodes as spec;

use crate::arithmetic::is_arithmetic;
use ae_core::equality::same_head;
use ae_core::lists::List;
use ae_core::terms::Head;
use ae_num::forms::Name;
use ae_store::nodes::NodeHead;
use ae_store::store::Store;
use ae_theory::theory::Equalities;
use std::alloc::{AllocError, Global};

/// Whether a node applies this head.
pub fn is_head(head: Head, node: NodeHead) -> bool
    ensures { result ≡ generating.applies head (applied node) }
{
    match node {
        NodeHead::Of(other) => same_head(head, other),
        NodeHead::Num { .. } => false,
        NodeHead::Fresh(_) => false,
    }
}

/// Whether linear forms may compute applications of a head.
fn is_operation(head: Head) -> bool
    ensures { result ≡ spec.is_operation head }
{
    match head {
        Head::Int(_) => true,
        Head::Real(_) => true,
        _ => false,
    }
}

/// Whether a name is known below a number and the same as another. It takes no memory.
#[tactic(auto, using(crate::proofs::NodeLaws::near_missing, crate::proofs::NodeLaws::near_at))]
pub fn is_near<E: Equalities>(
    store: &Store,
    equalities: &E,
    below: u32,
    name: Name,
    other: Name,
) -> bool
    ensures { result ≡ spec.is_near (seen store.now.signature store.now.nodes) (E.alike equalities.now) below name other }
{
    if other >= store.len() {
        return false;
    }
    let node = store.node(other);
    node.generation < below && equalities.same(other, name)
}

/// Whether a name is known below a number, is the same as another, and its term applies this head and isn't computed by
/// its linear form.
pub fn is_site<E: Equalities>(
    alloc: Global,
    store: &Store,
    equalities: &E,
    below: u32,
    head: Head,
    name: Name,
    other: Name,
) -> Result<bool, AllocError>
    ensures { IfOk result (λ b. b ≡ spec.is_site (seen store.now.signature store.now.nodes) (E.alike equalities.now) below head name other) }
{
    if !is_near(store, equalities, below, name, other) {
        return Ok(false);
    }
    if other >= store.len() {
        return Ok(false);
    }
    let node = store.node(other);
    if !is_head(head, node.head) {
        return Ok(false);
    }
    if !is_operation(head) {
        return Ok(true);
    }
    let term = store.term(other)?;
    let computed = is_arithmetic(alloc, &term)?;
    Ok(!computed)
}

/// Two names the other way round; other lists as they are.
pub fn turned(alloc: Global, names: &[Name]) -> Result<List<Name>, AllocError>
    ensures { IfOk result (λ ns. ns ≡ generating.turn names.now) }
{
    let mut turned = List::new(alloc);
    match names {
        [left, right] => {
            turned.push(*right)?;
            turned.push(*left)?;
        }
        _ => {
            let copies = List::from_slice(alloc, names)?;
            return Ok(copies);
        }
    }
    Ok(turned)
}
