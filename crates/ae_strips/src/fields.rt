//! Nodes of fields and of written records.
ghost use Rattle.std.specs.Prelude.{◌≡◌, ◌↔◌, ℕ, ◌<◌, [], ◌∷◌, length, IsTrue, IfSome, IfNone};
ghost use Rattle.ae_core.specs.declared.terms.Head.TheVariants as head;
ghost use Rattle.ae_store.specs.declared.nodes.NodeHead.TheVariants.{Of};
ghost use Rattle.ae_strips.specs.Applied.{Applies, IsAppliedTo};
ghost use Rattle.ae_strips.specs.Inner.FieldNodes.{IsFieldNode, IsWritten, HasArgument};

use ae_core::equality::{same_head, same_sorts};
use ae_core::terms::{Head, Sort};
use ae_num::forms::Name;
use ae_store::nodes::{Node, NodeHead};
use ae_store::store::Store;

/// A field: its type, its place in the type, and the name whose field it is.
#[derive(Clone, Copy)]
pub(crate) struct FieldAt {
    pub(crate) of: usize,
    pub(crate) place: usize,
    pub(crate) owner: Name,
}

/// Whether the names are one name alone.
fn is_alone(names: &[Name], name: Name) -> bool
    ensures { IsTrue result ↔ (names.now ≡ name ∷ []) }
{
    match names {
        [only] => *only == name,
        _ => false,
    }
}

/// Whether a node applies a head.
fn has_head(node: &Node, head: Head) -> bool
    ensures { IsTrue result ↔ (node.now.head ≡ Of head) }
{
    match node.head {
        NodeHead::Of(applied) => same_head(applied, head),
        NodeHead::Num { .. } => false,
        NodeHead::Fresh(_) => false,
    }
}

/// Whether a node applies a head, at these sorts, to a name alone.
fn applies(node: &Node, head: Head, sorts: &[Sort], of: Name) -> bool
    ensures { IsTrue result ↔ Applies node.now head sorts.now of }
{
    has_head(node, head)
        && is_alone(node.args.as_slice(), of)
        && same_sorts(node.sorts.as_slice(), sorts)
}

/// The name of the application of a head, at these sorts, to a name, where the store has it.
pub fn field_name(store: &Store, head: Head, sorts: &[Sort], of: Name) -> Name
    requires there { (n : ℕ) × IsAppliedTo store.now.nodes n head sorts.now of }
    ensures { IsAppliedTo store.now.nodes result head sorts.now of }
{
    let end = store.len();
    for name in of..end {
        if applies(store.node(name), head, sorts, of) {
            return name;
        }
    }
    unreachable!()
}

/// The field that a name is, if it is one.
pub(crate) fn field_at(store: &Store, name: Name) -> Option<FieldAt>
    requires { name < length store.now.nodes }
    ensures some { IfSome result (λ field. IsFieldNode store.now.nodes name field) }
    ensures none { IfNone result ((k place a : ℕ) → IsFieldNode store.now.nodes name (record { of = k; place = place; owner = a }) → ⊥) }
{
    let node = store.node(name);
    match node.head {
        NodeHead::Of(head) => match head {
            Head::Field { of, place } => match node.args.as_slice() {
                [owner] => Some(FieldAt {
                    of,
                    place,
                    owner: *owner,
                }),
                _ => None,
            },
            _ => None,
        },
        NodeHead::Num { .. } => None,
        NodeHead::Fresh(_) => None,
    }
}

/// Whether a node is a written record of a type at these sorts.
fn is_written(node: &Node, of: usize, sorts: &[Sort]) -> bool
    ensures { IsTrue result ↔ IsWritten node.now of sorts.now }
{
    has_head(node, Head::Build(of)) && same_sorts(node.sorts.as_slice(), sorts)
}

/// The name that stands in a place of a name that is a written record of a type at these sorts.
pub(crate) fn argument(
    store: &Store,
    name: Name,
    of: usize,
    place: usize,
    sorts: &[Sort],
) -> Option<Name>
    requires { name < length store.now.nodes }
    ensures some { IfSome result (λ u. HasArgument store.now.nodes name of place sorts.now u) }
    ensures none { IfNone result ((u : ℕ) → HasArgument store.now.nodes name of place sorts.now u → ⊥) }
{
    let node = store.node(name);
    if !is_written(node, of, sorts) {
        return None;
    }
    match node.args.as_slice().get(place) {
        Some(argument) => Some(*argument),
        None => None,
    }
}
