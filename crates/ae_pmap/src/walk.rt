//! A walk over a map by rising key.
ghost use Rattle.std.specs.Iterator.{YieldsFirstBy, item_count};

use crate::nodes::{Node, next_after};
use std::marker::Model;

/// The pairs of a map by rising key, seen as the list of those that are left.
///
/// It takes no memory: each pair is sought from the root, past the key that was given last.
#[derive(Drop)]
pub struct Walk<'a, V> {
    pub(crate) nodes: &'a [Node],
    pub(crate) values: &'a [V],
    pub(crate) root: usize,
    // The key of the pair that was given last.
    pub(crate) last: Option<usize>,
}

impl<'a, V> Model for Walk<'a, V> {
    ghost use Rattle.std.specs.Prelude.{ℕ, List};

    ghost Value = { List (ℕ × V) };

    ghost use Rattle.ae_pmap.specs.Trees.{pairs};
    ghost use Rattle.ae_pmap.specs.Nodes.{tree_at};
    ghost use Rattle.ae_pmap.specs.Inner.Nodes.{IsSound};
    ghost use Rattle.ae_pmap.specs.Forest.{valued, IsRoot};
    ghost use Rattle.ae_pmap.specs.Walk.{left_after};

    ghost view = { λ w. valued w.values.now (left_after w.last (pairs (tree_at w.nodes.now w.root))) };

    ghost invariant = { λ w. IsSound w.nodes.now × IsRoot (record { nodes = w.nodes.now; values = w.values.now; root = w.root }) w.root };
}

impl<'a, V> Iterator for Walk<'a, V> {
    type Item = (usize, &'a V);

    ghost next_gives = { YieldsFirstBy (λ item. (item.0, item.1.now)) (λ rest. rest) };

    ghost remaining = { item_count (λ rest. rest) };

    fn next(&mut self) -> Option<(usize, &'a V)> {
        let values = self.values;
        let (key, place) = next_after(self.nodes, self.root, self.last)?;
        self.last = Some(key);
        Some((key, &values[place]))
    }
}
