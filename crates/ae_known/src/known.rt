//! An index of names by what they apply.
ghost use Rattle.std.specs.Prelude.{◌≡◌, ◌<◌, ◌∷◌, [], ◌&&◌, ℕ, true, List, cond, length, slice_get, Some, IfOk, OnOk, OnErr};
ghost use Rattle.indexmap.specs.IndexMap.{get};
ghost use Rattle.ae_base.specs.Decided.{decided};
ghost use Rattle.ae_base.specs.Options.{or_else};
ghost use Rattle.ae_core.specs.Sorts.{same_sorts};
ghost use Rattle.ae_core.specs.declared.terms.Sort.{Sort};
ghost use Rattle.ae_store.specs.Keys.{is_same};
ghost use Rattle.ae_store.specs.declared.nodes.Node.{Node};
ghost use Rattle.ae_store.specs.declared.nodes.NodeHead.{NodeHead};
ghost use Rattle.ae_store.specs.declared.nodes.Shape.{Shape};
ghost use Rattle.ae_known.specs.Index as spec;

use crate::rows::{Line, enter_line, group_names};
use ae_core::lists::List;
use ae_core::terms::Sort;
use ae_num::forms::Name;
use ae_store::args::Args;
use ae_store::nodes::{NodeHead, Shape};
use ae_store::store::Store;
use indexmap::IndexMap;
use std::alloc::{AllocError, Global};

/// The names that were entered, by what they apply.
#[derive(Drop)]
pub struct Known {
    pub alloc: Global,
    pub lines: IndexMap<Shape, Line>,
    /// Names by their heads and an argument at a place.
    pub places: IndexMap<Shape, List<Name>>,
}

/// What a head stands under.
fn key(alloc: Global, head: NodeHead) -> Shape
    ensures { result ≡ spec.key head }
{
    Shape {
        head,
        sorts: List::new(alloc),
        args: Args::new(alloc),
        sort: Sort::Unit,
    }
}

/// What an argument of a head at a place stands under.
fn place_key(
    alloc: Global,
    head: NodeHead,
    place: usize,
    argument: Name,
) -> Result<Shape, AllocError>
    ensures { IfOk result (λ key. key ≡ spec.place_key head place argument) }
{
    let mut args = Args::new(alloc);
    args.push(place)?;
    args.push(argument)?;
    Ok(Shape {
        head,
        sorts: List::new(alloc),
        args,
        sort: Sort::Unit,
    })
}

/// Puts a name under a key, behind the others.
#[tactic(auto, using(crate::proofs::PlaceLaws::listed_last, crate::proofs::PlaceLaws::listed_more))]
pub fn push_under(
    alloc: Global,
    places: &mut IndexMap<Shape, List<Name>>,
    key: Shape,
    name: Name,
) -> Result<(), AllocError>
    ensures own { OnOk result (spec.is_listed name (or_else (get is_same places.new key) []) ≡ true) }
    ensures others { (k : Shape) (m : ℕ) → spec.is_listed m (or_else (get is_same places.old k) []) ≡ true → spec.is_listed m (or_else (get is_same places.new k) []) ≡ true }
{
    if let Some(names) = places.get_mut(&key) {
        names.push(name)?;
        return Ok(());
    }
    let mut names = List::new(alloc);
    names.push(name)?;
    places.insert(key, names)?;
    Ok(())
}

/// Puts a name under each of its arguments.
fn push_places(
    alloc: Global,
    places: &mut IndexMap<Shape, List<Name>>,
    head: NodeHead,
    args: &[Name],
    name: Name,
) -> Result<(), AllocError>
    ensures own { OnOk result ((place a : ℕ) → slice_get args.now place ≡ Some a → spec.is_listed name (or_else (get is_same places.new (spec.place_key head place a)) []) ≡ true) }
    ensures others { (k : Shape) (m : ℕ) → spec.is_listed m (or_else (get is_same places.old k) []) ≡ true → spec.is_listed m (or_else (get is_same places.new k) []) ≡ true }
{
    for place in 0..args.len() {
        let key = place_key(alloc, head, place, args[place])?;
        push_under(alloc, places, key, name)?;
    }
    Ok(())
}

/// Puts a name into the line of its head.
fn enter_head(
    alloc: Global,
    lines: &mut IndexMap<Shape, Line>,
    head: NodeHead,
    sorts: &[Sort],
    name: Name,
) -> Result<(), AllocError>
    ensures names { OnOk result ((h : NodeHead) → spec.line_names (get is_same lines.new (spec.key h))
        ≡ cond (decided (spec.NodeHead_discrete head h)) (spec.with_name name (spec.line_names (get is_same lines.old (spec.key h)))) (spec.line_names (get is_same lines.old (spec.key h)))) }
    ensures groups { OnOk result ((h : NodeHead) → spec.line_groups (get is_same lines.new (spec.key h))
        ≡ cond (decided (spec.NodeHead_discrete head h)) (spec.entered_groups sorts.now name (spec.line_groups (get is_same lines.old (spec.key h)))) (spec.line_groups (get is_same lines.old (spec.key h)))) }
    ensures names_kept { OnErr result ((h : NodeHead) → spec.line_names (get is_same lines.new (spec.key h)) ≡ spec.line_names (get is_same lines.old (spec.key h))) }
    ensures groups_kept { OnErr result ((h : NodeHead) → spec.line_groups (get is_same lines.new (spec.key h)) ≡ spec.line_groups (get is_same lines.old (spec.key h))) }
{
    let key = key(alloc, head);
    if let Some(line) = lines.get_mut(&key) {
        return enter_line(alloc, line, sorts, name);
    }
    let mut line = Line {
        names: List::new(alloc),
        groups: Vec::new(alloc),
    };
    enter_line(alloc, &mut line, sorts, name)?;
    lines.insert(key, line)?;
    Ok(())
}

impl Known {
    /// No name was entered.
    pub fn new(alloc: Global) -> Known
        ensures heads { (h : NodeHead) → spec.with_head result h ≡ [] }
        ensures sorts { (h : NodeHead) → (ss : List Sort) → spec.of result h ss ≡ [] }
    {
        Known {
            alloc,
            lines: IndexMap::new(alloc),
            places: IndexMap::new(alloc),
        }
    }

    /// The names of this head that were entered, rising. It takes no memory.
    pub fn with_head(&self, head: NodeHead) -> &[Name]
        ensures { result.now ≡ spec.with_head self.now head }
    {
        let key = key(self.alloc, head);
        match self.lines.get(&key) {
            None => &[],
            Some(line) => line.names.as_slice(),
        }
    }

    /// The names of this head and these sorts that were entered, rising. It takes no memory.
    pub fn of(&self, head: &NodeHead, sorts: &[Sort]) -> &[Name]
        ensures { result.now ≡ spec.of self.now head.now sorts.now }
    {
        let key = key(self.alloc, *head);
        match self.lines.get(&key) {
            None => &[],
            Some(line) => group_names(line.groups.as_slice(), sorts),
        }
    }

    /// Names among which are all of this head that were entered and have this argument at this place.
    pub fn with_argument(
        &self,
        head: NodeHead,
        place: usize,
        argument: Name,
    ) -> Result<&[Name], AllocError>
        ensures { IfOk result (λ names. names.now ≡ spec.with_argument self.now head place argument) }
    {
        let key = place_key(self.alloc, head, place, argument)?;
        match self.places.get(&key) {
            None => Ok(&[]),
            Some(names) => Ok(names.as_slice()),
        }
    }

    /// Enters a name of a store, in its place among those of its head and among those of its head and sorts, and behind those
    /// that each of its arguments has at its place. Refused for want of memory alone, and then `with_head` and `of` answer as
    /// before. Where names are entered rising, it costs about as much as the name has arguments.
    pub fn enter(&mut self, store: &Store, name: Name) -> Result<(), AllocError>
        requires within { name < length store.now.nodes }
        ensures heads { OnOk result ((x : Node) → slice_get store.now.nodes name ≡ Some x → (h : NodeHead) →
            spec.with_head self.new h ≡ cond (spec.has_head h x) (spec.with_name name (spec.with_head self.old h)) (spec.with_head self.old h)) }
        ensures sorts { OnOk result ((x : Node) → slice_get store.now.nodes name ≡ Some x → (h : NodeHead) → (ss : List Sort) →
            spec.of self.new h ss ≡ cond (spec.has_head h x && same_sorts x.sorts ss) (spec.with_name name (spec.of self.old h ss)) (spec.of self.old h ss)) }
        ensures arguments { OnOk result ((x : Node) → slice_get store.now.nodes name ≡ Some x → (place a : ℕ) → slice_get x.args place ≡ Some a →
            spec.is_listed name (spec.with_argument self.new x.head place a) ≡ true) }
        ensures offered { (h : NodeHead) → (place a m : ℕ) → spec.is_listed m (spec.with_argument self.old h place a) ≡ true → spec.is_listed m (spec.with_argument self.new h place a) ≡ true }
        ensures err { OnErr result ((h : NodeHead) → (spec.with_head self.new h ≡ spec.with_head self.old h) × ((ss : List Sort) → spec.of self.new h ss ≡ spec.of self.old h ss)) }
    {
        let node = store.node(name);
        push_places(
            self.alloc,
            &mut self.places,
            node.head,
            node.args.as_slice(),
            name,
        )?;
        enter_head(
            self.alloc,
            &mut self.lines,
            node.head,
            node.sorts.as_slice(),
            name,
        )
    }

    /// All names of a store.
    pub fn all(alloc: Global, store: &Store) -> Result<Known, AllocError>
        ensures { IfOk result (spec.HasHeads store.now.nodes) }
    {
        let mut known = Known::new(alloc);
        for name in 0..store.len() {
            known.enter(store, name)?;
        }
        Ok(known)
    }
}
