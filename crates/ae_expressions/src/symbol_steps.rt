//! The application of a function once its arguments are typed.

ghost use Rattle.std.specs.Prelude.{◌≡◌, IfOk, slice_get, Some};
ghost use Rattle.ae_core.specs.declared.problems.SymbolEntry as symbol;
ghost use Rattle.ae_core.specs.declared.terms.Head.TheVariants as head;
ghost use Rattle.ae_core.specs.declared.terms.Sort as sort;
ghost use Rattle.ae_core.specs.Putting.{put_sort};
ghost use Rattle.ae_elab.specs.Nodes.{AreTrees};
ghost use Rattle.ae_elab.specs.Rules.{give, typed};
ghost use Rattle.ae_elab.specs.Trees as tree;
ghost use Rattle.ae_elab.specs.Trees.{Trees};
ghost use Rattle.ae_elab.specs.Typings.{TypesTerm, nodes_of};

use ae_core::lists::List;
use ae_core::problems::Signature;
use ae_core::putting::put_sort;
use ae_core::terms::{Head, Sort};
use ae_elab::nodes::Node;
use ae_elab::term_steps::push_node;
use ae_elab::typings::{Context, TypedTerm, Typing};
use std::alloc::{AllocError, Global};

/// The arguments of a symbol, by their places among the nodes, and the sorts put for its type variables.
#[derive(Drop)]
pub struct Applied {
    pub sorts: List<Sort>,
    pub args: List<usize>,
}

// The sort of a function's value, with these sorts for its type variables; `unit` where the symbol has no value.
fn value_sort(
    alloc: Global,
    signature: &Signature,
    number: usize,
    sorts: &[Sort],
) -> Result<Sort, AllocError>
    ensures { IfOk result (λ s. (e : symbol.SymbolEntry) (r : sort.Sort) → slice_get signature.now.symbols number ≡ Some e → e.result ≡ Some r → s ≡ put_sort sorts.now r) }
{
    match signature.symbols.get(number) {
        Some(entry) => match &entry.result {
            Some(value) => put_sort(alloc, value, sorts),
            None => Ok(Sort::Unit),
        },
        None => Ok(Sort::Unit),
    }
}

/// A function, by its number, with its arguments.
pub fn function_term<'a>(
    context: &Context<'a>,
    typing: &mut Typing<'a>,
    number: usize,
    applied: Applied,
) -> Result<TypedTerm, AllocError>
    ensures { IfOk result (λ t. (e : symbol.SymbolEntry) (r : sort.Sort) (us : Trees) → slice_get context.now.known.symbols number ≡ Some e → e.result ≡ Some r
        → AreTrees (nodes_of typing.old) applied.args us
        → TypesTerm context.now (λ sc. give (typed (tree.apply (head.Symbol number) applied.sorts us) (put_sort applied.sorts r))) typing.old typing.new t) }
{
    let sort = value_sort(
        context.alloc,
        context.known.signature(),
        number,
        applied.sorts.as_slice(),
    )?;
    let node = Node::Apply {
        head: Head::Symbol(number),
        sorts: applied.sorts,
        args: applied.args,
    };
    let tree = push_node(typing, node)?;
    Ok(TypedTerm { tree, sort })
}
