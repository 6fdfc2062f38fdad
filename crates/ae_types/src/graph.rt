//! Sorts with sharing: a graph whose places stand for sorts. Places that have to have one sort are linked to one root.

ghost use Rattle.std.specs.Prelude.{◌≡◌, ℕ, ◌+◌, ◌<◌, ◌++◌, [], ◌∷◌, length, IfOk, OnOk, OnErr, slice_set};
ghost use Rattle.std.specs.BTreeMap.{get};
ghost use Rattle.std.specs.Ordering.{nat_cmp};
ghost use Rattle.ae_types.specs.Inner.Graphs.{GraphWell, NodesWell, class_at, node_at, origin, rewound, slots_of, unknown, value};
ghost use Rattle.ae_types.specs.Inner.Graphs as spec;
ghost use Rattle.ae_types.specs.Inner.Joins.{LinksDown, Shortened, Finds};
ghost use Rattle.ae_types.specs.declared.graph.Class.TheVariants.{Link, Known};

use ae_core::lists::List;
use ae_core::terms::Sort;
use std::alloc::{AllocError, Global};
use std::collections::BTreeMap;

/// A sort without arguments that isn't a variable.
#[derive(Clone, Copy, PartialEq, Eq)]
pub enum Constant {
    Rigid(usize),
    Int,
    Real,
    Bool,
    Unit,
}

/// What a place was entered for.
#[derive(Drop)]
pub enum Node {
    /// This variable.
    Variable(usize),
    /// This sort.
    Constant(Constant),
    /// The type of this number, of the sorts of these places, which are earlier ones.
    Built { head: usize, args: List<usize> },
}

/// What is known of a place.
#[derive(Clone, Copy)]
pub enum Class {
    /// It has the sort of this earlier place.
    Link(usize),
    /// It has the sort of the node of this place.
    Known(usize),
}

/// A place that is no link, and the place whose node it has.
#[derive(Clone, Copy)]
pub struct Root {
    pub place: usize,
    pub known: usize,
}

/// What was known of a place before it was written.
#[derive(Clone, Copy)]
pub struct Change {
    pub place: usize,
    pub class: Class,
}

/// Places, with what is known of them, and the place of each variable.
#[derive(Drop)]
pub struct Graph {
    pub nodes: List<Node>,
    pub classes: List<Class>,
    pub names: BTreeMap<usize, usize>,
}

/// The place of a variable, if it has one.
pub fn find_place(names: &BTreeMap<usize, usize>, var: usize) -> Option<usize>
    ensures { result ≡ get nat_cmp names.now var }
{
    names.get(&var).copied()
}

/// Writes what is known of a place, and notes what was known before.
pub fn write(
    classes: &mut List<Class>,
    log: &mut List<Change>,
    place: usize,
    class: Class,
) -> Result<(), AllocError>
    requires { place < length classes.old }
    ensures ok { OnOk result (classes.new ≡ slice_set classes.old place class) }
    ensures err { OnErr result (classes.new ≡ classes.old) }
    ensures rewinds { rewound classes.new log.new ≡ rewound classes.old log.old }
{
    let old = classes.as_slice()[place];
    log.push(Change { place, class: old })?;
    classes.set(place, class);
    Ok(())
}

/// Takes all changes back.
pub fn rewind(classes: &mut List<Class>, log: &mut List<Change>)
    ensures { classes.new ≡ rewound classes.old log.old }
{
    while let Some(change) = log.pop() {
        if change.place < classes.len() {
            classes.set(change.place, change.class);
        }
    }
}

/// Links a place to the place after the next one, if there is one.
fn shorten(
    classes: &mut List<Class>,
    log: &mut List<Change>,
    at: usize,
    next: usize,
) -> Result<(), AllocError>
    requires down { LinksDown classes.old }
    requires within { at < length classes.old }
    requires link { class_at classes.old at ≡ Link next }
    ensures shortened { Shortened classes.old classes.new }
    ensures rewinds { rewound classes.new log.new ≡ rewound classes.old log.old }
{
    if let Class::Link(far) = classes.as_slice()[next] {
        write(classes, log, at, Class::Link(far))?;
    }
    Ok(())
}

/// The root of a place. The links on the way are shortened, so that finding again takes fewer steps.
pub fn find(
    classes: &mut List<Class>,
    log: &mut List<Change>,
    start: usize,
) -> Result<Root, AllocError>
    requires down { LinksDown classes.old }
    requires within { start < length classes.old }
    ensures found { IfOk result (λ root. Finds classes.old classes.new start root) }
    ensures rewinds { rewound classes.new log.new ≡ rewound classes.old log.old }
{
    let mut at = start;
    while let Class::Link(next) = classes.as_slice()[at] {
        shorten(classes, log, at, next)?;
        at = next;
    }
    let known = known_place(classes.as_slice()[at]);
    Ok(Root { place: at, known })
}

/// Links each place that is no root to its root, so that no later step goes far.
pub fn flatten(classes: &mut List<Class>, log: &mut List<Change>) -> Result<(), AllocError>
    requires { LinksDown classes.old }
    ensures shortened { Shortened classes.old classes.new }
    ensures rewinds { rewound classes.new log.new ≡ rewound classes.old log.old }
{
    for at in 0..classes.len() {
        shorten_at(classes, log, at)?;
    }
    Ok(())
}

// Links a place that is no root to the place after the next one, if there is one.
fn shorten_at(
    classes: &mut List<Class>,
    log: &mut List<Change>,
    at: usize,
) -> Result<(), AllocError>
    requires down { LinksDown classes.old }
    requires within { at < length classes.old }
    ensures shortened { Shortened classes.old classes.new }
    ensures rewinds { rewound classes.new log.new ≡ rewound classes.old log.old }
{
    match classes.as_slice()[at] {
        Class::Link(next) => shorten(classes, log, at, next),
        Class::Known(_) => Ok(()),
    }
}

// The place whose node a root has.
fn known_place(class: Class) -> usize
    ensures { (k : ℕ) → class ≡ Known k → result ≡ k }
{
    match class {
        Class::Link(place) => place,
        Class::Known(place) => place,
    }
}

// The sort that a constant is.
fn constant_sort(constant: Constant) -> Sort
    ensures { result ≡ spec.constant_sort constant }
{
    match constant {
        Constant::Rigid(n) => Sort::Rigid(n),
        Constant::Int => Sort::Int,
        Constant::Real => Sort::Real,
        Constant::Bool => Sort::Bool,
        Constant::Unit => Sort::Unit,
    }
}

/// The sort that a place was entered for.
pub fn original(alloc: Global, nodes: &[Node], place: usize) -> Result<Sort, AllocError>
    requires well { NodesWell nodes.now }
    requires within { place < length nodes.now }
    ensures { IfOk result (λ s. s ≡ origin nodes.now place) }
{
    match &nodes[place] {
        Node::Variable(var) => Ok(Sort::Var(*var)),
        Node::Constant(constant) => Ok(constant_sort(*constant)),
        Node::Built { head, args } => {
            let mut sorts = List::new(alloc);
            for arg in args.as_slice() {
                sorts.push(original(alloc, nodes, *arg)?)?;
            }
            Ok(Sort::Named {
                head: *head,
                args: sorts,
            })
        }
    }
}

/// The variable of a node, and 0 where it is none.
pub fn variable_of(node: &Node) -> usize
    ensures { result ≡ spec.variable_of node.now }
{
    match node {
        Node::Variable(var) => *var,
        Node::Constant(_) => 0,
        Node::Built { .. } => 0,
    }
}

/// The sort at a place, as far as `fuel` steps into the graph tell it.
pub fn resolve(
    alloc: Global,
    nodes: &[Node],
    classes: &[Class],
    fuel: usize,
    at: usize,
) -> Result<Sort, AllocError>
    requires well { GraphWell nodes.now classes.now }
    requires within { at < length classes.now }
    ensures { IfOk result (λ s. s ≡ value (unknown nodes.now) fuel (slots_of nodes.now classes.now) at) }
{
    if fuel == 0 {
        return Ok(Sort::Var(variable_of(&nodes[at])));
    }
    match classes[at] {
        Class::Link(next) => resolve(alloc, nodes, classes, fuel - 1, next),
        Class::Known(known) => match &nodes[known] {
            Node::Variable(_) => Ok(Sort::Var(variable_of(&nodes[at]))),
            Node::Constant(constant) => Ok(constant_sort(*constant)),
            Node::Built { head, args } => {
                let mut sorts = List::new(alloc);
                for arg in args.as_slice() {
                    sorts.push(resolve(alloc, nodes, classes, fuel - 1, *arg)?)?;
                }
                Ok(Sort::Named {
                    head: *head,
                    args: sorts,
                })
            }
        },
    }
}
