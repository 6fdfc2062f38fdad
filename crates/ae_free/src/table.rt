//! The table: at which shape of representatives each entered name stands.
ghost use Rattle.std.specs.Prelude.{◌≡◌, ◌+◌, ◌<◌, ℕ, List, [], length, slice_get, Some, IfOk, IfSome, IfNone, OnOk, OnErr};
ghost use Rattle.std.specs.List.{AllByRecursion};
ghost use Rattle.ae_pmap.specs.Pairs.{found, put_in};
ghost use Rattle.ae_pmap.specs.Forest.{IsRoot};
ghost use Rattle.ae_store.specs.declared.nodes.Node.{Node};
ghost use Rattle.ae_free.specs.Collisions.{with_args, IsLeastCollision, IsCollision};
ghost use Rattle.ae_free.specs.Tables.{entered, HasPlaces, Fits, Stands};
ghost use Rattle.ae_free.specs.declared.table.Shared.{Shared as SharedView};

use crate::classes::{Class, least_other, put};
use ae_core::copies::{copy_sort, copy_sorts};
use ae_pmap::{Pmap, Version};
use ae_steps::Steps;
use ae_store::args::Args;
use ae_store::nodes::{Node, Shape};
use ae_store::store::Store;
use indexmap::IndexSet;
use std::alloc::{AllocError, Global};
use std::marker::{Brand, Model};
use std::sync::ledger::{Blank, Ledger};

/// Entered names with the representatives of their arguments. Each head with its sorts and representatives has a
/// number, and names of one number are found together.
#[derive(Drop)]
pub struct Table {
    alloc: Global,
    shapes: IndexSet<Shape>,
    numbers: Pmap<usize>,
    classes: Pmap<Class>,
    members: Pmap<()>,
}

impl Model for Table {
    ghost use Rattle.ae_free.specs.Tables.{Tables};
    ghost use Rattle.std.specs.Coded.{codes};
    ghost use Rattle.ae_core.specs.contracts.terms.Sort as sort_contract;

    ghost Value = { Tables };

    ghost coded = { Prim.hlevel (codes, sort_contract.the_row.coded) };

    ghost view = { λ t. record { shapes = t.shapes.keys; numbers = t.numbers; classes = t.classes; members = t.members } };
}

/// A version of a table.
#[derive(Clone, Copy)]
pub struct Shared {
    numbers: Version,
    classes: Version,
}

/// The shape of a node with these names in the place of its arguments.
fn shape_with(alloc: Global, node: &Node, args: &[usize]) -> Result<Shape, AllocError>
    ensures { IfOk result (λ shape. shape ≡ with_args args.now node.now) }
{
    let mut names = Args::new(alloc);
    for arg in args {
        names.push(*arg)?;
    }
    Ok(Shape {
        head: node.head,
        sorts: copy_sorts(alloc, node.sorts.as_slice())?,
        args: names,
        sort: copy_sort(alloc, &node.sort)?,
    })
}

impl Table {
    /// No name is entered. It takes no memory.
    pub fn new(alloc: Global) -> Table
        ensures empty { entered result ≡ [] }
        ensures fits { (nodes : List Node) → Fits nodes result }
    {
        Table {
            alloc,
            shapes: IndexSet::new(alloc),
            numbers: Pmap::new(alloc),
            classes: Pmap::new(alloc),
            members: Pmap::new(alloc),
        }
    }

    /// Sets the representatives of a name's arguments. Refused memory leaves the entered names as they were.
    pub fn enter(&mut self, store: &Store, name: usize, args: &[usize]) -> Result<(), AllocError>
        requires name { name < length store.now.nodes }
        requires args { AllByRecursion (λ a. a < length store.now.nodes) args.now }
        requires places { HasPlaces store.now.nodes name args.now }
        requires fits { Fits store.now.nodes self.old }
        ensures ok { OnOk result (entered self.new ≡ put_in name args.now (entered self.old)) }
        ensures err { OnErr result (entered self.new ≡ entered self.old) }
        ensures fits { Fits store.now.nodes self.new }
        ensures lasts { (nodes : List Node) (version : SharedView) (names : List (ℕ × List ℕ)) → Stands nodes self.old version names → Stands nodes self.new version names }
    {
        let shape = shape_with(self.alloc, store.node(name), args)?;
        let (number, _) = self.shapes.insert_full(shape)?;
        put::<Brand>(
            &mut self.numbers,
            &mut self.classes,
            &mut self.members,
            name,
            number,
            Blank::new(1),
        )
    }

    /// The least other entered name of the same symbol, sorts and representatives. It takes no memory.
    pub fn collide(&self, store: &Store, name: usize) -> Option<usize>
        requires fits { Fits store.now.nodes self.now }
        requires entered { (args : List ℕ) × (found (entered self.now) name ≡ Some args) }
        ensures some { (args : List ℕ) → found (entered self.now) name ≡ Some args →
            IfSome result (λ n. IsLeastCollision store.now.nodes (entered self.now) name args n) }
        ensures none { (args : List ℕ) → found (entered self.now) name ≡ Some args →
            IfNone result ((n : ℕ) → ¬ IsCollision store.now.nodes (entered self.now) name args n) }
    {
        let number = match self.numbers.get(name) {
            None => return None,
            Some(number) => *number,
        };
        match self.classes.get(number) {
            None => None,
            Some(class) => least_other(class, name),
        }
    }

    /// The version of the present table. It takes no memory, and two steps.
    pub fn share<L: Ledger>(&self, steps: &mut Steps<L>) -> Shared
        ensures version { (nodes : List Node) → Fits nodes self.now → Stands nodes self.now result (entered self.now) }
        ensures step { steps.new ≡ steps.old + 2 }
    {
        Shared {
            numbers: self.numbers.share(steps),
            classes: self.classes.share(steps),
        }
    }

    /// Goes to the table that a version stands for. It takes no memory, and two steps.
    pub fn back<L: Ledger>(&mut self, version: Shared, steps: &mut Steps<L>)
        requires numbers { IsRoot self.old.numbers version.numbers }
        requires classes { IsRoot self.old.classes version.classes }
        ensures table { (nodes : List Node) (names : List (ℕ × List ℕ)) → Stands nodes self.old version names → entered self.new ≡ names }
        ensures fits { (nodes : List Node) (names : List (ℕ × List ℕ)) → Stands nodes self.old version names → Fits nodes self.new }
        ensures lasts { (nodes : List Node) (other : SharedView) (names : List (ℕ × List ℕ)) → Stands nodes self.old other names → Stands nodes self.new other names }
        ensures step { steps.new ≡ steps.old + 2 }
    {
        self.numbers.back(version.numbers, steps);
        self.classes.back(version.classes, steps)
    }
}
