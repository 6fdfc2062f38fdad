//! Constructors of one representative.
ghost use Rattle.std.specs.Prelude.{◌≡◌, ◌↔◌, ◌+◌, ℕ, ◌<◌, List, length, get_or, set, IsTrue, IfOk, IfNone, IfSome, Some, None};
ghost use Rattle.std.specs.List.{AllByRecursion};
ghost use Rattle.ae_store.specs.Shapes.{shapes};
ghost use Rattle.ae_store.specs.Terms.{terms};
ghost use Rattle.ae_data.specs.Constructors.{AreDifferentConstructors};
ghost use Rattle.ae_sweeps.specs.Given.{rep_in};
ghost use Rattle.ae_literals.specs.declared.said.Said.{Said};
ghost use Rattle.ae_literals.specs.Unmet.{IsUnmet};
ghost use Rattle.ae_literals.specs.Inner.Seen.{IsOfConstructor, IsConstructors, AreSeen};

use crate::unmet::Unmet;
use ae_core::problems::Signature;
use ae_data::constructors::{clash, is_constructor};
use ae_num::forms::Name;
use ae_store::nodes::{Node, NodeHead};
use ae_store::store::Store;
use ae_sweeps::representative;
use std::alloc::{AllocError, Global};

/// Whether a node applies a constructor.
fn is_of_constructor(signature: &Signature, node: &Node) -> bool
    ensures { IsTrue result ↔ IsOfConstructor signature.now node.now }
{
    match node.head {
        NodeHead::Of(head) => is_constructor(signature, head),
        NodeHead::Num { .. } => false,
        NodeHead::Fresh(_) => false,
    }
}

/// Whether a name is that of a constructor.
fn names_constructor(signature: &Signature, store: &Store, name: Name) -> bool
    requires same { signature.now ≡ store.now.signature }
    requires name { name < length store.now.nodes }
    ensures { IsTrue result ↔ IsConstructors store.now.signature store.now.nodes name }
{
    let _len = store.len();
    is_of_constructor(signature, store.node(name))
}

/// What was seen of a representative.
fn seen_of(seen: &[Option<Name>], rep: Name) -> Option<Name>
    ensures { result ≡ get_or seen.now rep None }
{
    match seen.get(rep) {
        Some(name) => *name,
        None => None,
    }
}

/// Notes the constructor of a name, and answers the name of another one of its representative that was seen.
fn see(
    signature: &Signature,
    store: &Store,
    reps: &[Name],
    seen: &mut Vec<Option<Name>>,
    name: Name,
) -> Option<Unmet>
    requires same { signature.now ≡ store.now.signature }
    requires name { name < length store.now.nodes }
    requires reps { AllByRecursion (λ r. r < length store.now.nodes) reps.now }
    requires seen { AreSeen store.now.signature store.now.nodes (rep_in reps.now) seen.old.items name }
    ensures none { IfNone result (AreSeen store.now.signature store.now.nodes (rep_in reps.now) seen.new.items (name + 1)) }
    ensures some { (said : List Said) → IfSome result (λ u. IsUnmet store.now.signature store.now.nodes (rep_in reps.now) said u) }
{
    if !names_constructor(signature, store, name) {
        return None;
    }
    let rep = representative(reps, name);
    let Some(first) = seen_of(seen, rep) else {
        seen[rep] = Some(name);
        return None;
    };
    if clash(signature, store, first, name) {
        return Some(Unmet::Mixed {
            first,
            second: name,
        });
    }
    None
}

/// The first two constructors that have one representative.
pub(crate) fn first_mixed(
    alloc: Global,
    signature: &Signature,
    store: &Store,
    reps: &[Name],
) -> Result<Option<Unmet>, AllocError>
    requires same { signature.now ≡ store.now.signature }
    requires reps { AllByRecursion (λ r. r < length store.now.nodes) reps.now }
    ensures none { IfOk result (λ unmet. IfNone unmet ((m n : ℕ) → AreDifferentConstructors store.now.signature (terms (shapes store.now.nodes)) m n
        → rep_in reps.now m ≡ rep_in reps.now n → ⊥)) }
    ensures some { (said : List Said) → IfOk result (λ unmet. IfSome unmet (λ u. IsUnmet store.now.signature store.now.nodes (rep_in reps.now) said u)) }
{
    let mut seen = vec![in alloc; None; store.len()]?;
    for name in 0..store.len() {
        if let Some(unmet) = see(signature, store, reps, &mut seen, name) {
            return Ok(Some(unmet));
        }
    }
    Ok(None)
}
