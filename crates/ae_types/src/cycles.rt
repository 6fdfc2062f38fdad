//! Whether a graph has a solution: it has none exactly where the sort of some place is made of itself.

ghost use Rattle.std.specs.Prelude.{◌≡◌, ℕ, ◌+◌, ◌<◌, [], ◌≤◌, ◌≢◌, ◌^◌, length, map, slice_get, slice_index, IfOk, IfErr, IsSome, OnOk};
ghost use Rattle.ae_types.specs.Inner.Graphs.{GraphWell, NodesWell, origin, slot_at, slot_of, slots_of};
ghost use Rattle.ae_types.specs.Inner.Joins.{Blames};
ghost use Rattle.ae_types.specs.Inner.Levels.{Settled};
ghost use Rattle.ae_core.specs.declared.terms.Sort.{Sort, Var};
ghost use Rattle.ae_types.specs.declared.graph.Class.TheVariants.{Known};
ghost use Rattle.ae_types.specs.Inner.Walks.{refs, mark_at, frame_at, wrapped, begin, Walking, IsFresh, Opens, Descends, IsCycle, HaveParts, RunsTo, Wraps, IsBuilt, Noted, Notes, Unmarked, Visits, VisitsAll};
ghost use Rattle.ae_types.specs.Inner.Orders.{Loosened};
ghost use Rattle.ae_types.specs.declared.cycles.Mark.TheVariants.{New};

use crate::graph::{Class, Node, original, variable_of};
use crate::pairs::Clash;
use ae_core::lists::List;
use ae_core::terms::Sort;
use std::alloc::{AllocError, Global};
use std::mem::replace;

/// How far the walk has come with a place.
#[derive(Clone, Copy)]
pub enum Mark {
    New,
    /// It is on the path, at this index.
    Open(usize),
    /// All that its sort is made of is done too, and has lower numbers.
    Done(usize),
}

/// A place on the path, and which of the places that its sort is made of is looked at next.
#[derive(Clone, Copy)]
pub struct Frame {
    pub place: usize,
    pub next: usize,
}

/// A walk through a graph, depth first.
#[derive(Drop)]
pub struct Walk {
    pub marks: List<Mark>,
    pub path: List<Frame>,
    pub done: usize,
}

// The place of this index among those that a place's sort is made of.
fn part_at(nodes: &[Node], class: Class, index: usize) -> Option<usize>
    requires { (k : ℕ) → class ≡ Known k → k < length nodes.now }
    ensures part { result ≡ slice_get (refs (slot_of nodes.now class)) index }
    ensures small { IsSome result → index + 1 < 2 ^ 64 }
{
    match class {
        Class::Link(next) => { if index == 0 { Some(next) } else { None } }
        Class::Known(known) => match &nodes[known] {
            Node::Variable(_) => None,
            Node::Constant(_) => None,
            Node::Built { args, .. } => {
                let parts = args.as_slice();
                if index < parts.len() {
                    Some(parts[index])
                } else {
                    None
                }
            }
        },
    }
}

/// Gives every place a level above those of the places that its sort is made of.
pub fn settle(alloc: Global, nodes: &[Node], classes: &[Class]) -> Result<(), Clash>
    requires { GraphWell nodes.now classes.now }
    ensures ok { OnOk result (Settled (slots_of nodes.now classes.now)) }
    ensures err { IfErr result (λ clash. Blames nodes.now classes.now [] clash) }
{
    let mut walk = start(alloc, classes.len())?;
    let mut seen = List::new(alloc);
    for place in 0..classes.len() {
        visit(alloc, nodes, classes, &mut walk, &mut seen, place)?;
    }
    Ok(())
}

/// Gives levels to a graph that had them before the places `joined` were joined with others. It looks at these and at what
/// their sorts are made of, and at no other place. `marks` are those of a walk that has seen nothing, and are so again.
pub fn settle_from(
    alloc: Global,
    nodes: &[Node],
    classes: &[Class],
    marks: &mut List<Mark>,
    joined: &[usize],
) -> Result<(), Clash>
    requires well { GraphWell nodes.now classes.now }
    requires size { length marks.old ≡ length classes.now }
    requires new { (i : ℕ) → mark_at marks.old i ≡ New }
    requires loosened { Loosened (slots_of nodes.now classes.now) joined.now }
    ensures ok { OnOk result (Settled (slots_of nodes.now classes.now)) }
    ensures err { IfErr result (λ clash. Blames nodes.now classes.now [] clash) }
    ensures size { length marks.new ≡ length marks.old }
    ensures new { (i : ℕ) → mark_at marks.new i ≡ New }
{
    let own = replace(marks, List::new(alloc));
    let mut walk = Walk {
        marks: own,
        path: List::new(alloc),
        done: 0,
    };
    let mut seen = List::new(alloc);
    let result = visit_all(alloc, nodes, classes, &mut walk, &mut seen, joined);
    let mut after = walk.marks;
    forget(&mut after, &mut seen);
    *marks = after;
    result
}

/// Appends marks of new places, until there are so many.
pub fn extend(marks: &mut List<Mark>, count: usize) -> Result<(), AllocError>
    requires { Unmarked marks.old count }
    ensures unmarked { Unmarked marks.new count }
    ensures size { OnOk result (length marks.new ≡ count) }
{
    for _place in marks.len()..count {
        marks.push(Mark::New)?;
    }
    Ok(())
}

// Walks from each of these places that is one of the graph's.
fn visit_all(
    alloc: Global,
    nodes: &[Node],
    classes: &[Class],
    walk: &mut Walk,
    seen: &mut List<usize>,
    places: &[usize],
) -> Result<(), Clash>
    requires well { GraphWell nodes.now classes.now }
    requires walking { Walking (slots_of nodes.now classes.now) walk.old }
    requires path { walk.old.path ≡ [] }
    ensures ok { OnOk result (VisitsAll (slots_of nodes.now classes.now) places.now walk.new) }
    ensures err { IfErr result (λ clash. Blames nodes.now classes.now [] clash) }
    ensures notes { Notes walk.old.marks walk.new.marks seen.old seen.new }
{
    for place in places {
        visit(alloc, nodes, classes, walk, seen, *place)?;
    }
    Ok(())
}

// Walks from a place, if it is new and one of the graph's.
fn visit(
    alloc: Global,
    nodes: &[Node],
    classes: &[Class],
    walk: &mut Walk,
    seen: &mut List<usize>,
    place: usize,
) -> Result<(), Clash>
    requires well { GraphWell nodes.now classes.now }
    requires walking { Walking (slots_of nodes.now classes.now) walk.old }
    requires path { walk.old.path ≡ [] }
    ensures ok { OnOk result (Visits (slots_of nodes.now classes.now) walk.old walk.new place) }
    ensures err { IfErr result (λ clash. Blames nodes.now classes.now [] clash) }
    ensures notes { Notes walk.old.marks walk.new.marks seen.old seen.new }
{
    if place >= classes.len() {
        return Ok(());
    }
    match mark_of(&walk.marks, place) {
        Mark::New => {
            open(walk, seen, place)?;
            descend(alloc, nodes, classes, walk, seen)?;
            Ok(())
        }
        _ => Ok(()),
    }
}

// Makes all places new again, of which those that aren't are in a list.
fn forget(marks: &mut List<Mark>, seen: &mut List<usize>)
    requires { Noted marks.old seen.old }
    ensures size { length marks.new ≡ length marks.old }
    ensures new { (i : ℕ) → mark_at marks.new i ≡ New }
{
    while let Some(place) = seen.pop() {
        renew(marks, place);
    }
}

// Makes a place new.
fn renew(marks: &mut List<Mark>, place: usize)
    ensures size { length marks.new ≡ length marks.old }
    ensures others { (i : ℕ) → mark_at marks.new i ≢ New → (mark_at marks.old i ≢ New) × (i ≢ place) }
{
    if place < marks.len() {
        marks.set(place, Mark::New);
    }
}

// A walk that has seen no place.
fn start(alloc: Global, count: usize) -> Result<Walk, AllocError>
    ensures { IfOk result (IsFresh count) }
{
    let mut marks = List::new(alloc);
    for _place in 0..count {
        marks.push(Mark::New)?;
    }
    Ok(Walk {
        marks,
        path: List::new(alloc),
        done: 0,
    })
}

// How far the walk has come with a place.
fn mark_of(marks: &List<Mark>, place: usize) -> Mark
    requires { place < length marks.now }
    ensures { result ≡ mark_at marks.now place }
{
    marks.as_slice()[place]
}

// Puts a new place on the path, and behind those that were seen.
fn open(walk: &mut Walk, seen: &mut List<usize>, place: usize) -> Result<(), AllocError>
    requires { place < length walk.old.marks }
    ensures opens { OnOk result (Opens walk.old walk.new place) }
    ensures notes { Notes walk.old.marks walk.new.marks seen.old seen.new }
{
    let depth = walk.path.len();
    seen.push(place)?;
    walk.path.push(Frame { place, next: 0 })?;
    walk.marks.set(place, Mark::Open(depth));
    Ok(())
}

// Goes on until the path is empty.
fn descend(
    alloc: Global,
    nodes: &[Node],
    classes: &[Class],
    walk: &mut Walk,
    seen: &mut List<usize>,
) -> Result<(), Clash>
    requires well { GraphWell nodes.now classes.now }
    requires walking { Walking (slots_of nodes.now classes.now) walk.old }
    ensures ok { OnOk result (Descends (slots_of nodes.now classes.now) walk.old walk.new) }
    ensures err { IfErr result (λ clash. Blames nodes.now classes.now [] clash) }
    ensures notes { Notes walk.old.marks walk.new.marks seen.old seen.new }
{
    while let Some(frame) = walk.path.pop() {
        match part_at(nodes, classes[frame.place], frame.next) {
            None => {
                walk.marks.set(frame.place, Mark::Done(walk.done));
                walk.done += 1;
            }
            Some(child) => match mark_of(&walk.marks, child) {
                Mark::New => {
                    walk.path.push(frame)?;
                    open(walk, seen, child)?;
                }
                Mark::Open(depth) => {
                    walk.path.push(frame)?;
                    return Err(cycle(alloc, nodes, classes, walk.path.as_slice(), depth)?);
                }
                Mark::Done(_) => {
                    walk.path.push(Frame {
                        place: frame.place,
                        next: frame.next + 1,
                    })?;
                }
            },
        }
    }
    Ok(())
}

// The clash of the cycle that the path ends with. It is told from the lowest of its places: a path goes up only from
// the place of a variable that has got a type.
fn cycle(
    alloc: Global,
    nodes: &[Node],
    classes: &[Class],
    path: &[Frame],
    from: usize,
) -> Result<Clash, AllocError>
    requires well { GraphWell nodes.now classes.now }
    requires cycle { IsCycle (slots_of nodes.now classes.now) path.now from }
    ensures { IfOk result (λ clash. Blames nodes.now classes.now [] clash) }
{
    let low = lowest(path, from);
    let var = variable_of(&nodes[path[low].place]);
    let inner = wrap_all(alloc, nodes, classes, path, from, low, Sort::Var(var))?;
    let sort = wrap_all(alloc, nodes, classes, path, low, path.len(), inner)?;
    Ok(Clash::Cycle { var, sort })
}

// The index of the lowest place of a path, from an index on.
fn lowest(path: &[Frame], from: usize) -> usize
    requires { from < length path.now }
    ensures above { from ≤ result }
    ensures within { result < length path.now }
    ensures least { (k : ℕ) → from ≤ k → k < length path.now → (frame_at path.now result).place ≤ (frame_at path.now k).place }
{
    let mut low = from;
    for k in from..path.len() {
        if path[k].place < path[low].place {
            low = k;
        }
    }
    low
}

// The sorts that places were entered for.
fn originals(alloc: Global, nodes: &[Node], places: &[usize]) -> Result<List<Sort>, AllocError>
    requires well { NodesWell nodes.now }
    requires within { (k : ℕ) → k < length places.now → slice_index places.now k < length nodes.now }
    ensures { IfOk result (λ sorts. sorts ≡ map (origin nodes.now) places.now) }
{
    let mut sorts = List::new(alloc);
    for place in places {
        sorts.push(original(alloc, nodes, *place)?)?;
    }
    Ok(sorts)
}

// What is known of a frame's place, with a sort put for the part that the frame names.
fn wrap(
    alloc: Global,
    nodes: &[Node],
    classes: &[Class],
    frame: Frame,
    sort: Sort,
) -> Result<Sort, AllocError>
    requires well { GraphWell nodes.now classes.now }
    requires within { frame.place < length classes.now }
    requires part { frame.next < length (refs (slot_at (slots_of nodes.now classes.now) frame.place)) }
    ensures { IfOk result (λ s. s ≡ wrapped nodes.now (slot_at (slots_of nodes.now classes.now) frame.place) frame.next sort) }
{
    match classes[frame.place] {
        Class::Link(_) => Ok(sort),
        Class::Known(known) => match &nodes[known] {
            Node::Variable(_) => Ok(sort),
            Node::Constant(_) => Ok(sort),
            Node::Built { head, args } => {
                let mut sorts = originals(alloc, nodes, args.as_slice())?;
                sorts.set(frame.next, sort);
                Ok(Sort::Named {
                    head: *head,
                    args: sorts,
                })
            }
        },
    }
}

// The same for the frames between two indexes, from the last to the first.
fn wrap_all(
    alloc: Global,
    nodes: &[Node],
    classes: &[Class],
    path: &[Frame],
    from: usize,
    to: usize,
    inner: Sort,
) -> Result<Sort, AllocError>
    requires well { GraphWell nodes.now classes.now }
    requires order { from ≤ to }
    requires within { to ≤ length path.now }
    requires parts { HaveParts (slots_of nodes.now classes.now) path.now from to }
    ensures wraps { IfOk result (λ s. (end : ℕ) → RunsTo (slots_of nodes.now classes.now) path.now from to end → Wraps nodes.now classes.now (begin path.now from to end) end inner s) }
    ensures built { IfOk result (λ s. from < to → IsBuilt (slot_at (slots_of nodes.now classes.now) (frame_at path.now from).place) → (n : ℕ) → s ≢ Var n) }
{
    let mut sort = inner;
    let mut at = to;
    while from < at {
        at -= 1;
        sort = wrap(alloc, nodes, classes, path[at], sort)?;
    }
    Ok(sort)
}
