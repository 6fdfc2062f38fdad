//! The nodes of the trees: none is overwritten, so a tree stays where it stands.
ghost use Rattle.std.specs.Prelude.{◌≡◌, ℕ, ◌+◌, ◌<◌, ◌≤◌, max, ◌↔◌, ◌++◌, ◌∷◌, length, IfOk, IsTrue};
ghost use Rattle.ae_pmap.specs.Pairs.{found, put_in, take_out, Rises};
ghost use Rattle.ae_pmap.specs.Trees.{Tree, Fork, pairs, levels};
ghost use Rattle.ae_pmap.specs.Nodes.{tree_at};
ghost use Rattle.ae_pmap.specs.Inner.Nodes.{IsSound, Keeps, IsJoined};
ghost use Rattle.ae_pmap.specs.Walk.{left_after, first_of, IsPast};

use std::alloc::{AllocError, Global};

/// A node of a tree. Places count from 1, and place 0 is no node.
#[derive(Clone, Copy)]
pub(crate) struct Node {
    pub(crate) key: usize,
    pub(crate) value: usize,
    pub(crate) left: usize,
    pub(crate) right: usize,
    pub(crate) height: usize,
}

fn height(nodes: &[Node], place: usize) -> usize
    requires sound { IsSound nodes.now }
    requires place { place ≤ length nodes.now }
    ensures { result ≡ levels (tree_at nodes.now place) }
{
    if place == 0 {
        0
    } else {
        nodes[place - 1].height
    }
}

/// Adds a node over two trees whose heights differ by at most one.
fn fork(
    nodes: &mut Vec<Node>,
    left: usize,
    key: usize,
    value: usize,
    right: usize,
) -> Result<usize, AllocError>
    requires sound { IsSound nodes.old.items }
    requires left { left ≤ length nodes.old.items }
    requires right { right ≤ length nodes.old.items }
    requires left_low { levels (tree_at nodes.old.items left) ≤ levels (tree_at nodes.old.items right) + 1 }
    requires right_low { levels (tree_at nodes.old.items right) ≤ levels (tree_at nodes.old.items left) + 1 }
    ensures sound { IsSound nodes.new.items }
    ensures keeps { Keeps nodes.old.items nodes.new.items }
    ensures place { IfOk result (λ p. p ≤ length nodes.new.items) }
    ensures tree { IfOk result (λ p. tree_at nodes.new.items p ≡
        Fork (tree_at nodes.old.items left) key value (tree_at nodes.old.items right)) }
{
    let left_height = height(nodes, left);
    let right_height = height(nodes, right);
    let height = left_height.max(right_height).saturating_add(1);
    nodes.push(Node {
        key,
        value,
        left,
        right,
        height,
    })?;
    Ok(nodes.len())
}

/// Adds a node over two trees, of which the left one is higher by two.
fn turn_right(
    nodes: &mut Vec<Node>,
    left: usize,
    key: usize,
    value: usize,
    right: usize,
) -> Result<usize, AllocError>
    requires sound { IsSound nodes.old.items }
    requires left { left ≤ length nodes.old.items }
    requires right { right ≤ length nodes.old.items }
    requires higher { levels (tree_at nodes.old.items left) ≡ levels (tree_at nodes.old.items right) + 2 }
    ensures sound { IsSound nodes.new.items }
    ensures keeps { Keeps nodes.old.items nodes.new.items }
    ensures place { IfOk result (λ p. p ≤ length nodes.new.items) }
    ensures joined { IfOk result (λ p. IsJoined (tree_at nodes.old.items left) key value
        (tree_at nodes.old.items right) (tree_at nodes.new.items p)) }
{
    let top = nodes[left - 1];
    let outer = height(nodes, top.left);
    let inner = height(nodes, top.right);
    if inner <= outer {
        let below = fork(nodes, top.right, key, value, right)?;
        return fork(nodes, top.left, top.key, top.value, below);
    }
    let middle = nodes[top.right - 1];
    let first = fork(nodes, top.left, top.key, top.value, middle.left)?;
    let second = fork(nodes, middle.right, key, value, right)?;
    fork(nodes, first, middle.key, middle.value, second)
}

/// Adds a node over two trees, of which the right one is higher by two.
fn turn_left(
    nodes: &mut Vec<Node>,
    left: usize,
    key: usize,
    value: usize,
    right: usize,
) -> Result<usize, AllocError>
    requires sound { IsSound nodes.old.items }
    requires left { left ≤ length nodes.old.items }
    requires right { right ≤ length nodes.old.items }
    requires higher { levels (tree_at nodes.old.items right) ≡ levels (tree_at nodes.old.items left) + 2 }
    ensures sound { IsSound nodes.new.items }
    ensures keeps { Keeps nodes.old.items nodes.new.items }
    ensures place { IfOk result (λ p. p ≤ length nodes.new.items) }
    ensures joined { IfOk result (λ p. IsJoined (tree_at nodes.old.items left) key value
        (tree_at nodes.old.items right) (tree_at nodes.new.items p)) }
{
    let top = nodes[right - 1];
    let inner = height(nodes, top.left);
    let outer = height(nodes, top.right);
    if inner <= outer {
        let below = fork(nodes, left, key, value, top.left)?;
        return fork(nodes, below, top.key, top.value, top.right);
    }
    let middle = nodes[top.left - 1];
    let first = fork(nodes, left, key, value, middle.left)?;
    let second = fork(nodes, middle.right, top.key, top.value, top.right)?;
    fork(nodes, first, middle.key, middle.value, second)
}

/// Adds a node over two trees whose heights differ by at most two.
fn join(
    nodes: &mut Vec<Node>,
    left: usize,
    key: usize,
    value: usize,
    right: usize,
) -> Result<usize, AllocError>
    requires sound { IsSound nodes.old.items }
    requires left { left ≤ length nodes.old.items }
    requires right { right ≤ length nodes.old.items }
    requires left_low { levels (tree_at nodes.old.items left) ≤ levels (tree_at nodes.old.items right) + 2 }
    requires right_low { levels (tree_at nodes.old.items right) ≤ levels (tree_at nodes.old.items left) + 2 }
    ensures sound { IsSound nodes.new.items }
    ensures keeps { Keeps nodes.old.items nodes.new.items }
    ensures place { IfOk result (λ p. p ≤ length nodes.new.items) }
    ensures joined { IfOk result (λ p. IsJoined (tree_at nodes.old.items left) key value
        (tree_at nodes.old.items right) (tree_at nodes.new.items p)) }
{
    let left_height = height(nodes, left);
    let right_height = height(nodes, right);
    if left_height > right_height && left_height - right_height > 1 {
        return turn_right(nodes, left, key, value, right);
    }
    if right_height > left_height && right_height - left_height > 1 {
        return turn_left(nodes, left, key, value, right);
    }
    fork(nodes, left, key, value, right)
}

/// Where the value of a key stands.
pub(crate) fn find(nodes: &[Node], root: usize, key: usize) -> Option<usize>
    requires sound { IsSound nodes.now }
    requires root { root ≤ length nodes.now }
    requires rises { Rises (pairs (tree_at nodes.now root)) }
    ensures { result ≡ found (pairs (tree_at nodes.now root)) key }
{
    let mut place = root;
    while place > 0 {
        let node = nodes[place - 1];
        if key < node.key {
            place = node.left;
        } else if node.key < key {
            place = node.right;
        } else {
            return Some(node.value);
        }
    }
    None
}

/// Puts a pair into a tree.
pub(crate) fn insert(
    nodes: &mut Vec<Node>,
    place: usize,
    key: usize,
    value: usize,
) -> Result<usize, AllocError>
    requires sound { IsSound nodes.old.items }
    requires place { place ≤ length nodes.old.items }
    requires rises { Rises (pairs (tree_at nodes.old.items place)) }
    ensures sound { IsSound nodes.new.items }
    ensures keeps { Keeps nodes.old.items nodes.new.items }
    ensures place { IfOk result (λ p. p ≤ length nodes.new.items) }
    ensures entries { IfOk result (λ p. pairs (tree_at nodes.new.items p) ≡
        put_in key value (pairs (tree_at nodes.old.items place))) }
    ensures low { IfOk result (λ p. levels (tree_at nodes.old.items place) ≤ levels (tree_at nodes.new.items p)) }
    ensures high { IfOk result (λ p. levels (tree_at nodes.new.items p) ≤ levels (tree_at nodes.old.items place) + 1) }
{
    if place == 0 {
        return fork(nodes, 0, key, value, 0);
    }
    let node = nodes[place - 1];
    if key < node.key {
        let left = insert(nodes, node.left, key, value)?;
        return join(nodes, left, node.key, node.value, node.right);
    }
    if node.key < key {
        let right = insert(nodes, node.right, key, value)?;
        return join(nodes, node.left, node.key, node.value, right);
    }
    fork(nodes, node.left, key, value, node.right)
}

/// The first node of a tree, and the tree without its pair.
fn take_first(nodes: &mut Vec<Node>, place: usize) -> Result<(Node, usize), AllocError>
    requires sound { IsSound nodes.old.items }
    requires some { 0 < place }
    requires place { place ≤ length nodes.old.items }
    ensures sound { IsSound nodes.new.items }
    ensures keeps { Keeps nodes.old.items nodes.new.items }
    ensures place { IfOk result (λ r. r.1 ≤ length nodes.new.items) }
    ensures entries { IfOk result (λ r. pairs (tree_at nodes.old.items place) ≡
        (r.0.key, r.0.value) ∷ pairs (tree_at nodes.new.items r.1)) }
    ensures low { IfOk result (λ r. levels (tree_at nodes.new.items r.1) ≤ levels (tree_at nodes.old.items place)) }
    ensures high { IfOk result (λ r. levels (tree_at nodes.old.items place) ≤ levels (tree_at nodes.new.items r.1) + 1) }
{
    let node = nodes[place - 1];
    if node.left == 0 {
        return Ok((node, node.right));
    }
    let (first, left) = take_first(nodes, node.left)?;
    let rest = join(nodes, left, node.key, node.value, node.right)?;
    Ok((first, rest))
}

/// One tree of two whose heights differ by at most one.
fn append(nodes: &mut Vec<Node>, left: usize, right: usize) -> Result<usize, AllocError>
    requires sound { IsSound nodes.old.items }
    requires left { left ≤ length nodes.old.items }
    requires right { right ≤ length nodes.old.items }
    requires left_low { levels (tree_at nodes.old.items left) ≤ levels (tree_at nodes.old.items right) + 1 }
    requires right_low { levels (tree_at nodes.old.items right) ≤ levels (tree_at nodes.old.items left) + 1 }
    ensures sound { IsSound nodes.new.items }
    ensures keeps { Keeps nodes.old.items nodes.new.items }
    ensures place { IfOk result (λ p. p ≤ length nodes.new.items) }
    ensures entries { IfOk result (λ p. pairs (tree_at nodes.new.items p) ≡
        pairs (tree_at nodes.old.items left) ++ pairs (tree_at nodes.old.items right)) }
    ensures low { IfOk result (λ p. levels (tree_at nodes.new.items p) ≤
        max (levels (tree_at nodes.old.items left)) (levels (tree_at nodes.old.items right)) + 1) }
    ensures high { IfOk result (λ p. max (levels (tree_at nodes.old.items left)) (levels (tree_at nodes.old.items right)) ≤
        levels (tree_at nodes.new.items p)) }
{
    if right == 0 {
        return Ok(left);
    }
    let (first, rest) = take_first(nodes, right)?;
    join(nodes, left, first.key, first.value, rest)
}

/// Takes the pair of a key out of a tree.
pub(crate) fn remove(nodes: &mut Vec<Node>, place: usize, key: usize) -> Result<usize, AllocError>
    requires sound { IsSound nodes.old.items }
    requires place { place ≤ length nodes.old.items }
    requires rises { Rises (pairs (tree_at nodes.old.items place)) }
    ensures sound { IsSound nodes.new.items }
    ensures keeps { Keeps nodes.old.items nodes.new.items }
    ensures place { IfOk result (λ p. p ≤ length nodes.new.items) }
    ensures entries { IfOk result (λ p. pairs (tree_at nodes.new.items p) ≡
        take_out key (pairs (tree_at nodes.old.items place))) }
    ensures low { IfOk result (λ p. levels (tree_at nodes.new.items p) ≤ levels (tree_at nodes.old.items place)) }
    ensures high { IfOk result (λ p. levels (tree_at nodes.old.items place) ≤ levels (tree_at nodes.new.items p) + 1) }
{
    if place == 0 {
        return Ok(0);
    }
    let node = nodes[place - 1];
    if key < node.key {
        let left = remove(nodes, node.left, key)?;
        return join(nodes, left, node.key, node.value, node.right);
    }
    if node.key < key {
        let right = remove(nodes, node.right, key)?;
        return join(nodes, node.left, node.key, node.value, right);
    }
    append(nodes, node.left, node.right)
}

/// The first pair of a tree whose key is above the last one.
pub(crate) fn next_after(nodes: &[Node], root: usize, last: Option<usize>) -> Option<(usize, usize)>
    requires sound { IsSound nodes.now }
    requires root { root ≤ length nodes.now }
    requires rises { Rises (pairs (tree_at nodes.now root)) }
    ensures { result ≡ first_of (left_after last (pairs (tree_at nodes.now root))) }
{
    let mut place = root;
    let mut best = None;
    while place > 0 {
        let node = nodes[place - 1];
        if is_past(last, node.key) {
            best = Some((node.key, node.value));
            place = node.left;
        } else {
            place = node.right;
        }
    }
    best
}

fn is_past(last: Option<usize>, key: usize) -> bool
    ensures { IsTrue result ↔ IsPast last key }
{
    match last {
        Some(last) => last < key,
        None => true,
    }
}
