//! What stands in a term that is shared: one pass over the nodes, whatever the size of the tree that they are.

ghost use Rattle.std.specs.Prelude.{◌≡◌, ◌&&◌, ◌||◌, not, List, map, IfOk};
ghost use Rattle.std.specs.List.{list_any};
ghost use Rattle.ae_elab.specs.Formulas as rules;
ghost use Rattle.ae_expressions.specs.Inner.Marks.{applies, base_mark, choice_mark, mark_of, marked, has_mark};
ghost use Rattle.ae_elab.specs.Nodes.{Entry, entries_of, entry_of, tree_at, trees_at};
ghost use Rattle.ae_elab.specs.Trees as trees;

use ae_core::lists::{List, at};
use ae_elab::nodes::Node;
use std::alloc::{AllocError, Global};

/// What is looked for in a term.
#[derive(Clone, Copy)]
pub enum Sought {
    /// A block's variable, by its number.
    Variable(usize),
    /// `if` between terms.
    Choice,
}

// Whether a place is marked; a place without a node isn't.
fn is_marked(marks: &[bool], place: usize) -> bool
    ensures { result ≡ marked marks.now place }
{
    match marks.get(place) {
        Some(mark) => *mark,
        None => false,
    }
}

// Whether one of the places is marked.
fn any_marked(marks: &[bool], places: &[usize]) -> bool
    ensures { result ≡ list_any (marked marks.now) places.now }
{
    for place in places {
        if is_marked(marks, *place) {
            return true;
        }
    }
    false
}

// Whether one of two is marked.
fn either(first: bool, second: bool) -> bool
    ensures { result ≡ (first || second) }
{
    first || second
}

// Whether an `if` is marked, from the marks of its branches.
fn mark_choice(sought: Sought, positive: bool, negative: bool) -> bool
    ensures { result ≡ choice_mark sought positive negative }
{
    match sought {
        Sought::Variable(_) => positive || negative,
        Sought::Choice => true,
    }
}

// Whether a record that is changed is marked, from whether one of its fields is left and from its own mark.
fn mark_base(sought: Sought, is_left: bool, base: bool) -> bool
    ensures { result ≡ base_mark sought is_left base }
{
    match sought {
        Sought::Variable(_) => is_left && base,
        Sought::Choice => base,
    }
}

// Whether a node is marked, from the marks of those before it.
fn mark(sought: Sought, marks: &[bool], node: &Node) -> bool
    ensures { (es : List Entry) → marks.now ≡ map (mark_of sought) es → result ≡ mark_of sought (entry_of es node.now) }
{
    match node {
        Node::Variable(number) => match sought {
            Sought::Variable(wanted) => *number == wanted,
            Sought::Choice => false,
        },
        Node::Apply {
            head: _,
            sorts: _,
            args,
        } => any_marked(marks, args.as_slice()),
        Node::Operation {
            op: _,
            sort: _,
            args,
        } => any_marked(marks, args.as_slice()),
        Node::Build {
            of: _,
            sorts: _,
            count: _,
            places: _,
            values,
        } => any_marked(marks, values.as_slice()),
        Node::Update {
            of: _,
            sorts: _,
            count,
            base,
            places,
            values,
        } => either(
            mark_base(sought, places.len() < *count, is_marked(marks, *base)),
            any_marked(marks, values.as_slice()),
        ),
        Node::Choice {
            condition: _,
            positive,
            negative,
        } => mark_choice(
            sought,
            is_marked(marks, *positive),
            is_marked(marks, *negative),
        ),
        _ => false,
    }
}

// The nodes in which it stands.
fn marks(alloc: Global, sought: Sought, nodes: &[Node]) -> Result<List<bool>, AllocError>
    ensures { IfOk result (λ marks. marks ≡ map (mark_of sought) (entries_of nodes.now)) }
{
    let mut marks = List::new(alloc);
    for node in nodes {
        let found = mark(sought, marks.as_slice(), node);
        marks.push(found)?;
    }
    Ok(marks)
}

/// Whether it stands in one of the terms at these places, in time linear in the number of nodes.
pub fn stands_among(
    alloc: Global,
    sought: Sought,
    nodes: &[Node],
    places: &[usize],
) -> Result<bool, AllocError>
    ensures { IfOk result (λ found. found ≡ has_mark sought (trees_at (entries_of nodes.now) places.now)) }
{
    let marks = marks(alloc, sought, nodes)?;
    Ok(any_marked(marks.as_slice(), places))
}

/// Whether each of these variables stands in one of the terms.
pub fn covers(
    alloc: Global,
    variables: &[usize],
    nodes: &[Node],
    places: &[usize],
) -> Result<bool, AllocError>
    ensures { IfOk result (λ all. all ≡ rules.covers variables.now (trees_at (entries_of nodes.now) places.now)) }
{
    for variable in variables {
        if !stands_among(alloc, Sought::Variable(*variable), nodes, places)? {
            return Ok(false);
        }
    }
    Ok(true)
}

// Whether a node is no variable and no numeral.
fn is_applied(node: &Node) -> bool
    ensures { result ≡ applies node.now }
{
    match node {
        Node::Variable(_) => false,
        Node::Numeral {
            top: _,
            bottom: _,
            real: _,
        } => false,
        _ => true,
    }
}

// Whether the term at a place is no variable and no numeral.
fn is_application(nodes: &[Node], place: usize) -> bool
    ensures { result ≡ trees.is_application (tree_at (entries_of nodes.now) place) }
{
    match at(nodes, place) {
        Some(node) => is_applied(node),
        None => true,
    }
}

/// Whether a term of a trigger may be the term at a place: an application in which no `if` stands.
pub fn is_pattern(alloc: Global, nodes: &[Node], place: usize) -> Result<bool, AllocError>
    ensures { IfOk result (λ fits. fits ≡ (trees.is_application (tree_at (entries_of nodes.now) place) && not (trees.has_choice (tree_at (entries_of nodes.now) place)))) }
{
    let marks = marks(alloc, Sought::Choice, nodes)?;
    Ok(is_application(nodes, place) && !is_marked(marks.as_slice(), place))
}
