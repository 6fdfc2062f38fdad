//! Triggers: the terms that stand for formulas there, and what is asked of their terms.

ghost use Rattle.std.specs.Prelude.{◌≡◌, ◌<◌, ◌++◌, ℕ, List, None, Some, map, length, IfErr, IfOk, OnOk};
ghost use Rattle.ae_core.specs.declared.terms.Sort as sort;
ghost use Rattle.ae_elab.specs.declared.faults.TypeFault.TheVariants as fault;
ghost use Rattle.ae_elab.specs.Expressions.{part_of};
ghost use Rattle.ae_elab.specs.Formulas as rules;
ghost use Rattle.ae_elab.specs.Nodes.{a_tree, claim_at, entries_of, entry_of, tree_at, trees_at};
ghost use Rattle.ae_elab.specs.Steps.{AreHeld, AreFailed};
ghost use Rattle.ae_elab.specs.Trees.{pattern_of};
ghost use Rattle.ae_elab.specs.Typings.{Puts, around_in, nodes_of};
ghost use Rattle.ae_typing.specs.Inner.Earlier.{earlier};
ghost use Rattle.ae_typing.specs.Triggers.{trigger_term, trigger_covers};

use ae_core::copies::{copy_sort, copy_sorts};
use ae_core::lists::{List, at};
use ae_core::terms::{Head, Sort};
use ae_elab::faults::TypeFault;
use ae_elab::nodes::Node;
use ae_elab::term_steps::push_node;
use ae_elab::typings::{Around, Bound, Typing};
use ae_expressions::marks::{covers, is_pattern};
use ae_syntax::exprs::{Expr, Quantifier};
use ae_syntax::spans::Span;
use std::alloc::{AllocError, Global};

// The places before one; any other is the place `none`, where no node stands.
fn earlier_places(
    alloc: Global,
    places: &[usize],
    end: usize,
    none: usize,
) -> Result<List<usize>, AllocError>
    ensures { IfOk result (λ all. all ≡ map (earlier end none) places.now) }
{
    let mut all = List::new(alloc);
    for place in places {
        let kept = if *place < end { *place } else { none };
        all.push(kept)?;
    }
    Ok(all)
}

// The node of the term that a formula among the nodes stands for in a trigger.
fn pattern_node(alloc: Global, nodes: &[Node], claim: usize) -> Result<Node, AllocError>
    ensures { IfOk result (λ n. entry_of (entries_of nodes.now) n ≡ a_tree (pattern_of (claim_at (entries_of nodes.now) claim))) }
{
    let Some(node) = at(nodes, claim) else {
        return Ok(Node::Variable(0));
    };
    let Node::Predicate {
        symbol,
        sorts,
        args,
    } = node
    else {
        return Ok(Node::Variable(0));
    };
    let places = earlier_places(alloc, args.as_slice(), claim, nodes.len())?;
    let copies = copy_sorts(alloc, sorts.as_slice())?;
    Ok(Node::Apply {
        head: Head::Symbol(*symbol),
        sorts: copies,
        args: places,
    })
}

/// The term that a formula among the nodes stands for in a trigger.
pub fn as_pattern<'a>(
    alloc: Global,
    typing: &mut Typing<'a>,
    claim: usize,
) -> Result<usize, AllocError>
    ensures { IfOk result (Puts typing.old typing.new (a_tree (pattern_of (claim_at (nodes_of typing.old) claim)))) }
{
    let node = pattern_node(alloc, typing.environment.nodes(), claim)?;
    push_node(typing, node)
}

// The fault of a trigger at a place.
fn bad_trigger(place: Span) -> TypeFault
    ensures { result ≡ fault.BadTrigger place.from place.to }
{
    TypeFault::BadTrigger {
        from: place.from as usize,
        to: place.to as usize,
    }
}

/// The term of a trigger, at a place of the text, is an application in which no `if` stands.
pub fn is_trigger_term(
    alloc: Global,
    nodes: &[Node],
    place: Span,
    tree: usize,
) -> Result<(), TypeFault>
    ensures met { OnOk result (AreHeld (trigger_term place (tree_at (entries_of nodes.now) tree))) }
    ensures fault { IfErr result (AreFailed (trigger_term place (tree_at (entries_of nodes.now) tree))) }
{
    if is_pattern(alloc, nodes, tree)? {
        return Ok(());
    }
    Err(bad_trigger(place))
}

/// A trigger, whose first term stands at a place of the text, has each of these variables.
pub fn is_covering(
    alloc: Global,
    variables: &[usize],
    nodes: &[Node],
    place: Span,
    trees: &[usize],
) -> Result<(), TypeFault>
    ensures met { OnOk result (AreHeld (trigger_covers variables.now place (trees_at (entries_of nodes.now) trees.now))) }
    ensures fault { IfErr result (AreFailed (trigger_covers variables.now place (trees_at (entries_of nodes.now) trees.now))) }
{
    if covers(alloc, variables, nodes, trees)? {
        return Ok(());
    }
    Err(bad_trigger(place))
}

/// Where the first of these expressions stands.
pub fn first_place(exprs: &[Expr]) -> Span
    ensures { result ≡ rules.first_place_of (map part_of exprs.now) }
{
    match exprs.first() {
        Some(first) => first.span,
        None => Span { from: 0, to: 0 },
    }
}

/// The numbers of a block's variables.
pub fn variable_numbers(alloc: Global, bounds: &[Bound]) -> Result<List<usize>, AllocError>
    ensures { IfOk result (λ all. all ≡ map (λ b. b.number) bounds.now) }
{
    let mut all = List::new(alloc);
    for bound in bounds {
        all.push(bound.number)?;
    }
    Ok(all)
}

/// The sorts of a block's variables.
pub fn variable_sorts(alloc: Global, bounds: &[Bound]) -> Result<List<Sort>, AllocError>
    ensures { IfOk result (λ all. all ≡ map (λ b. b.sort) bounds.now) }
{
    let mut all = List::new(alloc);
    for bound in bounds {
        all.push(copy_sort(alloc, &bound.sort)?)?;
    }
    Ok(all)
}

// The variables of the block round one of this quantifier with which that one is merged.
fn outer_variables(quantifier: Quantifier, around: &Option<Around>) -> &[usize]
    ensures { result.now ≡ rules.merged_with quantifier (around_in around.now) }
{
    match around {
        Some(outer) => match (quantifier, outer.quantifier) {
            (Quantifier::Forall, Quantifier::Forall) => outer.variables.as_slice(),
            (Quantifier::Exists, Quantifier::Exists) => outer.variables.as_slice(),
            (Quantifier::Forall, Quantifier::Exists) => &[],
            (Quantifier::Exists, Quantifier::Forall) => &[],
        },
        None => &[],
    }
}

/// The variables of a block behind those of the block round it with which it is merged.
pub fn merged_variables(
    alloc: Global,
    quantifier: Quantifier,
    around: &Option<Around>,
    own: &[usize],
) -> Result<List<usize>, AllocError>
    ensures { IfOk result (λ all. all ≡ rules.merged_with quantifier (around_in around.now) ++ own.now) }
{
    let mut all = List::new(alloc);
    for variable in outer_variables(quantifier, around) {
        all.push(*variable)?;
    }
    for other in own {
        all.push(*other)?;
    }
    Ok(all)
}

/// The block that the body of a block would be merged with: this one, unless it has triggers.
pub fn around_body(quantifier: Quantifier, variables: List<usize>, count: usize) -> Option<Around>
    ensures none { 0 < count → around_in result ≡ None }
    ensures this { count ≡ 0 → around_in result ≡ Some (quantifier, variables) }
{
    if count != 0 {
        return None;
    }
    Some(Around {
        quantifier,
        variables,
    })
}
