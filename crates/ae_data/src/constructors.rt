//! Names of different constructors.
ghost use Rattle.std.specs.Prelude.{◌≡◌, ◌<◌, ◌↔◌, IsTrue, MatchOption, length};
ghost use Rattle.ae_core.specs.declared.terms.Head.{Head as HeadOf};
ghost use Rattle.ae_rules.specs.Derivations.{IsConstructor};
ghost use Rattle.ae_store.specs.declared.nodes.NodeHead.TheVariants.{Of};
ghost use Rattle.ae_store.specs.Shapes.{shapes};
ghost use Rattle.ae_store.specs.Terms.{terms};
ghost use Rattle.ae_data.specs.Constructors.{AreDifferentConstructors};

use ae_core::equality::same_head;
use ae_core::problems::{Nature, Signature};
use ae_core::terms::Head;
use ae_num::forms::Name;
use ae_store::nodes::{Node, NodeHead};
use ae_store::store::Store;

/// Whether a head is a constructor of an enumeration.
pub fn is_constructor(signature: &Signature, head: Head) -> bool
    ensures { IsTrue result ↔ IsConstructor signature.now head }
{
    match head {
        Head::Symbol(number) => match signature.symbols.as_slice().get(number) {
            None => false,
            Some(entry) => match entry.nature {
                Nature::Choice { .. } => true,
                _ => false,
            },
        },
        Head::True => true,
        Head::False => true,
        Head::Void => true,
        _ => false,
    }
}

/// The constructor that a node is of, if it is of one.
fn constructor(signature: &Signature, node: &Node) -> Option<Head>
    ensures { MatchOption result ((h : HeadOf) → node.now.head ≡ Of h → ¬ (IsConstructor signature.now h)) (λ h. (node.now.head ≡ Of h) × IsConstructor signature.now h) }
{
    match node.head {
        NodeHead::Of(head) => {
            if is_constructor(signature, head) {
                Some(head)
            } else {
                None
            }
        }
        NodeHead::Num { .. } => None,
        NodeHead::Fresh(_) => None,
    }
}

/// Whether two names are those of different constructors. It takes no memory.
pub fn clash(signature: &Signature, store: &Store, left: Name, right: Name) -> bool
    requires same { signature.now ≡ store.now.signature }
    requires left { left < length store.now.nodes }
    requires right { right < length store.now.nodes }
    ensures { IsTrue result ↔ AreDifferentConstructors store.now.signature (terms (shapes store.now.nodes)) left right }
{
    let _len = store.len();
    match constructor(signature, store.node(left)) {
        None => false,
        Some(first) => match constructor(signature, store.node(right)) {
            None => false,
            Some(second) => !same_head(first, second),
        },
    }
}
