//! Assumed literals of the theory of constants.
use ae_core::formulas::Lit;

/// What a literal says of names.
#[derive(Clone, Copy, PartialEq, Eq)]
pub enum Edge {
    /// The names are the same.
    Same { left: usize, right: usize },
    /// The names differ.
    Apart { left: usize, right: usize },
    /// Nothing.
    Other,
}

/// A literal with its tag, behind those of an earlier place: 0 for none, and otherwise one above the number of a node.
#[derive(Drop)]
pub struct Node {
    pub lit: Lit,
    pub tag: usize,
    pub edge: Edge,
    /// What stood for the right side of an equation before, and gives way to `to`.
    pub from: usize,
    /// What stood for the left side of an equation before.
    pub to: usize,
    pub parent: usize,
}
