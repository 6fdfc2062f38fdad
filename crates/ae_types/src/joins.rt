//! Joining places: each pair of places is made one, with all that it takes.

ghost use Rattle.std.specs.Prelude.{◌≡◌, ℕ, List, ◌+◌, ◌<◌, ◌++◌, length, IfOk, IfErr, OnOk, MatchBool, [], ◌∷◌, IsTrue, true, false};
ghost use Rattle.ae_types.specs.Inner.Graphs.{GraphWell, NodesWell, class_at, is_variable, node_at, known_slot, rewound, slots_of};
ghost use Rattle.ae_types.specs.Inner.Joins.{pairs_of, demands, joined, Compatible, PairsWell, DiffersAt, Blames, United, Stepped, Closed};
ghost use Rattle.ae_types.specs.Inner.Orders.{Ordered};
ghost use Rattle.ae_types.specs.declared.graph.Class.TheVariants.{Known};

use crate::graph::{Change, Class, Node, Root, find, original, write};
use crate::pairs::Clash;
use ae_core::lists::List;
use std::alloc::{AllocError, Global};

/// Two places that are to have one sort.
#[derive(Clone, Copy)]
pub struct Pair {
    pub left: usize,
    pub right: usize,
}

// Appends the pairs of two lists of places, of one length.
fn push_pairs(todo: &mut List<Pair>, left: &[usize], right: &[usize]) -> Result<(), AllocError>
    requires { length left.now ≡ length right.now }
    ensures { OnOk result (todo.new ≡ todo.old ++ pairs_of left.now right.now) }
{
    for i in 0..left.len() {
        todo.push(Pair {
            left: left[i],
            right: right[i],
        })?;
    }
    Ok(())
}

// The clash of two places that can't be one.
fn differ(alloc: Global, nodes: &[Node], low: usize, high: usize) -> Result<Clash, AllocError>
    requires well { NodesWell nodes.now }
    requires low { low < length nodes.now }
    requires high { high < length nodes.now }
    requires incompatible { Compatible (known_slot (node_at nodes.now low)) (known_slot (node_at nodes.now high)) → ⊥ }
    ensures { IfOk result (λ clash. DiffersAt nodes.now low high clash) }
{
    let left = original(alloc, nodes, low)?;
    let right = original(alloc, nodes, high)?;
    Ok(Clash::Differ { left, right })
}

// Appends what has to be equal for two nodes to be one. `false` where they can't be.
fn demand(todo: &mut List<Pair>, low: &Node, high: &Node) -> Result<bool, AllocError>
    ensures { IfOk result (λ fits. MatchBool fits (Compatible (known_slot low.now) (known_slot high.now) × (todo.new ≡ todo.old ++ demands (known_slot low.now) (known_slot high.now))) (Compatible (known_slot low.now) (known_slot high.now) → ⊥)) }
{
    match (low, high) {
        (Node::Constant(left), Node::Constant(right)) => Ok(*left == *right),
        (Node::Constant(_), Node::Built { .. }) => Ok(false),
        (Node::Built { .. }, Node::Constant(_)) => Ok(false),
        (
            Node::Built {
                head: one,
                args: left,
            },
            Node::Built {
                head: other,
                args: right,
            },
        ) => {
            if *one != *other || left.len() != right.len() {
                return Ok(false);
            }
            push_pairs(todo, left.as_slice(), right.as_slice())?;
            Ok(true)
        }
        _ => Ok(true),
    }
}

// Makes the higher of two roots a link to the lower, which gets the node of the higher where nothing is known of it.
fn link(
    nodes: &[Node],
    classes: &mut List<Class>,
    log: &mut List<Change>,
    low: Root,
    high: Root,
) -> Result<(), AllocError>
    requires well { GraphWell nodes.now classes.old }
    requires order { low.place < high.place }
    requires within { high.place < length classes.old }
    requires low_known { class_at classes.old low.place ≡ Known low.known }
    requires high_known { class_at classes.old high.place ≡ Known high.known }
    ensures well { OnOk result (GraphWell nodes.now classes.new) }
    ensures ok { OnOk result (slots_of nodes.now classes.new ≡ joined (slots_of nodes.now classes.old) low.place high.place) }
    ensures rewinds { rewound classes.new log.new ≡ rewound classes.old log.old }
{
    write(classes, log, high.place, Class::Link(low.place))?;
    if takes_node(&nodes[low.known], &nodes[high.known]) {
        write(classes, log, low.place, Class::Known(high.known))?;
    }
    Ok(())
}

// Whether nothing is known of the lower place, and something of the higher.
fn takes_node(low: &Node, high: &Node) -> bool
    ensures yes { IsTrue result → (is_variable low.now ≡ true) × (is_variable high.now ≡ false) }
    ensures no { result ≡ false → is_variable low.now ≡ true → is_variable high.now ≡ true }
{
    match (low, high) {
        (Node::Variable(_), Node::Constant(_)) => true,
        (Node::Variable(_), Node::Built { .. }) => true,
        _ => false,
    }
}

// Makes two roots one, and appends the lower to the joined places.
fn unite(
    alloc: Global,
    nodes: &[Node],
    classes: &mut List<Class>,
    log: &mut List<Change>,
    todo: &mut List<Pair>,
    joined: &mut List<usize>,
    low: Root,
    high: Root,
) -> Result<(), Clash>
    requires well { GraphWell nodes.now classes.old }
    requires order { low.place < high.place }
    requires within { high.place < length classes.old }
    requires low_known { class_at classes.old low.place ≡ Known low.known }
    requires high_known { class_at classes.old high.place ≡ Known high.known }
    ensures ok { OnOk result (United nodes.now classes.old classes.new todo.old todo.new low high) }
    ensures joined { OnOk result (joined.new ≡ joined.old ++ low.place ∷ []) }
    ensures err { IfErr result (λ clash. DiffersAt nodes.now low.known high.known clash) }
    ensures rewinds { rewound classes.new log.new ≡ rewound classes.old log.old }
{
    if !demand(todo, &nodes[low.known], &nodes[high.known])? {
        return Err(differ(alloc, nodes, low.known, high.known)?);
    }
    link(nodes, classes, log, low, high)?;
    joined.push(low.place)?;
    Ok(())
}

// Makes the two places of a pair one. Places that were joined with others are appended to `joined`: levels from before order
// the others as they did.
fn step(
    alloc: Global,
    nodes: &[Node],
    classes: &mut List<Class>,
    log: &mut List<Change>,
    todo: &mut List<Pair>,
    joined: &mut List<usize>,
    pair: Pair,
) -> Result<(), Clash>
    requires well { GraphWell nodes.now classes.old }
    requires left { pair.left < length nodes.now }
    requires right { pair.right < length nodes.now }
    requires todo { PairsWell (length nodes.now) todo.old }
    ensures ok { OnOk result (Stepped nodes.now classes.old classes.new todo.old todo.new pair) }
    ensures ordered { OnOk result ((ls : List ℕ) → Ordered ls joined.old (slots_of nodes.now classes.old) → Ordered ls joined.new (slots_of nodes.now classes.new)) }
    ensures err { IfErr result (λ clash. Blames nodes.now classes.old (pair ∷ []) clash) }
    ensures rewinds { rewound classes.new log.new ≡ rewound classes.old log.old }
{
    let left = find(classes, log, pair.left)?;
    let right = find(classes, log, pair.right)?;
    if left.place == right.place {
        return Ok(());
    }
    if left.place < right.place {
        unite(alloc, nodes, classes, log, todo, joined, left, right)
    } else {
        unite(alloc, nodes, classes, log, todo, joined, right, left)
    }
}

/// Makes the two places of each pair one. Places that were joined with others are appended to `joined`: levels from before
/// order the others as they did.
pub fn close(
    alloc: Global,
    nodes: &[Node],
    classes: &mut List<Class>,
    log: &mut List<Change>,
    todo: &mut List<Pair>,
    joined: &mut List<usize>,
) -> Result<(), Clash>
    requires well { GraphWell nodes.now classes.old }
    requires todo { PairsWell (length nodes.now) todo.old }
    ensures ok { OnOk result (Closed nodes.now classes.old classes.new todo.old) }
    ensures ordered { OnOk result ((ls : List ℕ) → Ordered ls joined.old (slots_of nodes.now classes.old) → Ordered ls joined.new (slots_of nodes.now classes.new)) }
    ensures err { IfErr result (λ clash. Blames nodes.now classes.old todo.old clash) }
    ensures rewinds { rewound classes.new log.new ≡ rewound classes.old log.old }
{
    while let Some(pair) = todo.pop() {
        step(alloc, nodes, classes, log, todo, joined, pair)?;
    }
    Ok(())
}
