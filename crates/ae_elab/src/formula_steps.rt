//! What the typing of a formula does once its parts are typed.

ghost use Rattle.ae_elab.specs.declared.typings.Context as declared;
ghost use Rattle.ae_elab.specs.AfterParts.{then_truth};
ghost use Rattle.ae_elab.specs.Nodes.{IsTree};
ghost use Rattle.ae_elab.specs.Rules.{typed};
ghost use Rattle.ae_elab.specs.Trees.{Tree};
ghost use Rattle.ae_elab.specs.Typings.{ClaimAnswer, nodes_of};

use crate::conditions::is_bool;
use crate::faults::TypeFault;
use crate::nodes::Node;
use crate::term_steps::push_node;
use crate::typings::{TypedTerm, Typing};
use ae_syntax::spans::Span;

/// A term at a place of the text, in a formula's place.
pub fn holds<'a>(typing: &mut Typing<'a>, place: Span, inner: TypedTerm) -> Result<usize, TypeFault>
    ensures { (c : declared.Context) (x : Tree) → IsTree (nodes_of typing.old) inner.tree x
        → ClaimAnswer c (λ sc. then_truth place (typed x inner.sort)) typing.old typing.new result }
{
    is_bool(&mut typing.bindings, place, &inner.sort)?;
    Ok(push_node(typing, Node::Holds(inner.tree))?)
}
