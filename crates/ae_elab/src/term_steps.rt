//! What the typing of a term does once its parts are typed.

ghost use Rattle.std.specs.Prelude.{◌≡◌, [], ◌∷◌, length, List, IfOk};
ghost use Rattle.std.specs.List.{AllByRecursion};
ghost use Rattle.ae_elab.specs.declared.typings.Context as declared;
ghost use Rattle.ae_elab.specs.AfterParts.{then_negative, then_ascribed};
ghost use Rattle.ae_elab.specs.Names.{IsName, names_in_type};
ghost use Rattle.ae_elab.specs.Nodes.{IsTree, entry_of};
ghost use Rattle.ae_elab.specs.Rules as rule;
ghost use Rattle.ae_elab.specs.Rules.{give, typed};
ghost use Rattle.ae_elab.specs.Steps.{IsTaken};
ghost use Rattle.ae_elab.specs.Terms as rules;
ghost use Rattle.ae_elab.specs.Trees as tree;
ghost use Rattle.ae_elab.specs.Trees.{Tree, more, none};
ghost use Rattle.ae_elab.specs.Typings.{Puts, TypesTerm, TermAnswer, nodes_of};

use crate::arithmetic::{becomes, may_be};
use crate::conditions::has_sort;
use crate::faults::TypeFault;
use crate::grounds::Ground;
use crate::nodes::Node;
use crate::numbers::Numbers;
use crate::passing::Passing;
use crate::typings::{Context, TypedTerm, Typing};
use crate::written_types::sort_of;
use ae_core::copies::copy_sort;
use ae_core::lists::List;
use ae_core::terms::{Head, Op, Sort};
use ae_syntax::exprs::Number;
use ae_syntax::spans::Span;
use ae_syntax::types::WrittenType;
use std::alloc::{AllocError, Global};

/// A node behind the others, and its place.
pub fn push_node<'a>(typing: &mut Typing<'a>, node: Node) -> Result<usize, AllocError>
    ensures { IfOk result (Puts typing.old typing.new (entry_of (nodes_of typing.old) node)) }
{
    typing.environment.push(node)
}

/// A numeral.
pub fn numeral<'a>(typing: &mut Typing<'a>, number: Number) -> Result<TypedTerm, AllocError>
    ensures { IfOk result (λ t. (c : declared.Context) → TypesTerm c (λ sc. rules.numeral_rule number) typing.old typing.new t) }
{
    match number {
        Number::Whole(top) => {
            let node = Node::Numeral {
                top,
                bottom: 1,
                real: false,
            };
            let tree = push_node(typing, node)?;
            Ok(TypedTerm {
                tree,
                sort: Sort::Int,
            })
        }
        Number::Decimal { top, bottom } => {
            let node = Node::Numeral {
                top,
                bottom,
                real: true,
            };
            let tree = push_node(typing, node)?;
            Ok(TypedTerm {
                tree,
                sort: Sort::Real,
            })
        }
    }
}

/// `true`, `false` or `void`.
pub fn constant<'a>(
    alloc: Global,
    typing: &mut Typing<'a>,
    head: Head,
    sort: Sort,
) -> Result<TypedTerm, AllocError>
    ensures { IfOk result (λ t. (c : declared.Context) → TypesTerm c (λ sc. give (typed (tree.constant head) sort)) typing.old typing.new t) }
{
    let node = Node::Apply {
        head,
        sorts: List::new(alloc),
        args: List::new(alloc),
    };
    let tree = push_node(typing, node)?;
    Ok(TypedTerm { tree, sort })
}

/// Two operands of one numeric sort: their places among the nodes, and the sort of the first one.
#[derive(Drop)]
pub struct Operands {
    pub first: usize,
    pub second: usize,
    pub sort: Sort,
}

/// An operation between two operands.
pub fn operation<'a>(
    alloc: Global,
    typing: &mut Typing<'a>,
    op: Op,
    operands: Operands,
) -> Result<TypedTerm, AllocError>
    ensures { IfOk result (λ t. (c : declared.Context) (x y : Tree)
        → IsTree (nodes_of typing.old) operands.first x → IsTree (nodes_of typing.old) operands.second y
        → TypesTerm c (λ sc. give (typed (tree.operation op operands.sort (more x (more y none))) operands.sort)) typing.old typing.new t) }
{
    let sort = copy_sort(alloc, &operands.sort)?;
    let mut args = List::new(alloc);
    args.push(operands.first)?;
    args.push(operands.second)?;
    let tree = push_node(typing, Node::Operation { op, sort, args })?;
    Ok(TypedTerm {
        tree,
        sort: operands.sort,
    })
}

/// The opposite number of a term at a place of the text.
pub fn negated<'a>(
    alloc: Global,
    typing: &mut Typing<'a>,
    place: Span,
    inner: TypedTerm,
) -> Result<TypedTerm, TypeFault>
    ensures { (c : declared.Context) (x : Tree) → IsTree (nodes_of typing.old) inner.tree x
        → TermAnswer c (λ sc. then_negative place (typed x inner.sort)) typing.old typing.new result }
{
    may_be(
        alloc,
        &typing.bindings,
        place,
        Numbers::IntOrReal,
        &inner.sort,
    )?;
    becomes(
        alloc,
        &mut typing.bindings,
        place,
        Numbers::IntOrReal,
        &inner.sort,
    )?;
    let sort = copy_sort(alloc, &inner.sort)?;
    let mut args = List::new(alloc);
    args.push(inner.tree)?;
    let node = Node::Operation {
        op: Op::Neg,
        sort,
        args,
    };
    let tree = push_node(typing, node)?;
    Ok(TypedTerm {
        tree,
        sort: inner.sort,
    })
}

/// A term at a place of the text, with the sort that is written beside it.
pub fn ascribed<'a>(
    context: &Context<'a>,
    typing: &mut Typing<'a>,
    place: Span,
    inner: TypedTerm,
    written: &WrittenType,
) -> Result<TypedTerm, TypeFault>
    requires names { AllByRecursion (IsName context.now.text.now) (names_in_type written.now) }
    ensures { (x : Tree) → IsTree (nodes_of typing.old) inner.tree x
        → TermAnswer context.now (λ sc. then_ascribed place written.now sc (typed x inner.sort)) typing.old typing.new result }
{
    let sort = sort_of(
        context.alloc,
        context.text,
        &context.known,
        &Ground::Free,
        &mut typing.passing,
        written,
    )?;
    has_sort(
        context.alloc,
        &mut typing.bindings,
        place,
        &sort,
        &inner.sort,
    )?;
    Ok(TypedTerm {
        tree: inner.tree,
        sort,
    })
}

/// As many new unknowns.
pub fn unknowns<'a>(
    alloc: Global,
    passing: &mut Passing<'a>,
    count: usize,
) -> Result<List<Sort>, AllocError>
    ensures { IfOk result (λ ss. IsTaken (rule.unknowns count) passing.old passing.new ss) }
{
    let mut sorts = List::new(alloc);
    'more: for _place in 0..count {
        let number = passing.fresh()?;
        sorts.push(Sort::Var(number))?;
    }
    Ok(sorts)
}
