//! The map and its versions.
ghost use Rattle.std.specs.Prelude.{◌≡◌, ℕ, ◌+◌, ◌<◌, ◌≤◌, [], OnOk, OnErr, IsOk, Some, None, option_copied};
ghost use Rattle.ae_pmap.specs.Pairs.{found, put_in, take_out, with_at, Rises};
ghost use Rattle.ae_pmap.specs.Trees.{IsShallow};
ghost use Rattle.ae_pmap.specs.Nodes.{tree_at};
ghost use Rattle.ae_pmap.specs.Forest.{map_at, present, StandsFor, Lasts, IsRoot};

use crate::nodes::{Node, find, insert, remove};
use crate::walk::Walk;
use ae_steps::Steps;
use std::alloc::{AllocError, Global};
use std::marker::Model;
use std::sync::ledger::Ledger;

/// A finite map from numbers, whose versions last as long as it does.
///
/// Memory is given back only when the map is dropped: a change adds nodes, and overwrites none.
#[derive(Drop)]
pub struct Pmap<V: Drop> {
    nodes: Vec<Node>,
    values: Vec<V>,
    root: usize,
}

impl<V: Drop> Model for Pmap<V> {
    ghost use Rattle.std.specs.Prelude.{length, ℕ, List};
    ghost use Rattle.ae_pmap.specs.Forest.{Forest, IsRoot};
    ghost use Rattle.ae_pmap.specs.Inner.Nodes.{IsSound};

    ghost Value = { Forest V };

    ghost view = { λ p. record { nodes = p.nodes.items; values = p.values.items; root = p.root } };

    ghost invariant = { λ p. IsSound p.nodes.items × IsRoot (record { nodes = p.nodes.items; values = p.values.items; root = p.root }) p.root };
}

/// A version of a map: the place of its root.
#[derive(Clone, Copy)]
pub struct Version {
    root: usize,
}

impl Model for Version {
    ghost Value = { ℕ };

    ghost view = { λ v. v.root };

    ghost inverse = { λ n. record { root = n } };
}

impl<V: Drop> Pmap<V> {
    /// An empty map. It takes no memory.
    pub fn new(alloc: Global) -> Self
        ensures { present result ≡ [] }
    {
        Pmap {
            nodes: Vec::new(alloc),
            values: Vec::new(alloc),
            root: 0,
        }
    }

    /// The value at a key, `None` where there is none. It takes no memory, and goes down a shallow tree.
    pub fn get(&self, key: usize) -> Option<&V>
        ensures value { option_copied result ≡ found (present self.now) key }
        ensures shallow { IsShallow (tree_at self.now.nodes self.now.root) }
    {
        match find(&self.nodes, self.root, key) {
            Some(place) => Some(&self.values[place]),
            None => None,
        }
    }

    /// The pairs by rising key. It takes no memory.
    pub fn walk(&self) -> Walk<'_, V>
        ensures pairs { result ≡ present self.now }
        ensures rises { Rises (present self.now) }
    {
        Walk {
            nodes: &self.nodes,
            values: &self.values,
            root: self.root,
            last: None,
        }
    }

    /// Sets the value at a key. Refused memory leaves the map as it was.
    pub fn insert(&mut self, key: usize, value: V) -> Result<(), AllocError>
        ensures ok { OnOk result (present self.new ≡ put_in key value (present self.old)) }
        ensures at { OnOk result ((q : ℕ) → found (present self.new) q ≡ with_at (found (present self.old)) key (Some value) q) }
        ensures err { OnErr result (present self.new ≡ present self.old) }
        ensures lasts { Lasts self.old self.new }
    {
        let place = self.values.len();
        self.values.push(value)?;
        let root = insert(&mut self.nodes, self.root, key, place)?;
        self.root = root;
        Ok(())
    }

    /// Takes out the value at a key; where there is none, nothing changes and no memory is taken.
    /// Refused memory leaves the map as it was.
    pub fn remove(&mut self, key: usize) -> Result<(), AllocError>
        ensures ok { OnOk result (present self.new ≡ take_out key (present self.old)) }
        ensures at { OnOk result ((q : ℕ) → found (present self.new) q ≡ with_at (found (present self.old)) key None q) }
        ensures err { OnErr result (present self.new ≡ present self.old) }
        ensures absent { found (present self.old) key ≡ None → IsOk result }
        ensures lasts { Lasts self.old self.new }
    {
        if find(&self.nodes, self.root, key).is_none() {
            return Ok(());
        }
        let root = remove(&mut self.nodes, self.root, key)?;
        self.root = root;
        Ok(())
    }

    /// The version of the present map, for `back`. It takes no memory.
    pub fn share<L: Ledger>(&self, steps: &mut Steps<L>) -> Version
        ensures version { StandsFor self.now result (present self.now) }
        ensures step { steps.new ≡ steps.old + 1 }
    {
        steps.tick();
        Version { root: self.root }
    }

    /// Goes to the map that a version of this map stands for, an earlier or a later one. It takes no memory.
    pub fn back<L: Ledger>(&mut self, version: Version, steps: &mut Steps<L>)
        requires { IsRoot self.old version }
        ensures map { present self.new ≡ map_at self.old version }
        ensures lasts { Lasts self.old self.new }
        ensures step { steps.new ≡ steps.old + 1 }
    {
        self.root = version.root;
        steps.tick()
    }
}
