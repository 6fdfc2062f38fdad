//! Sizes, each number of them counted up to one more than the nodes that a formula may have.
ghost use Rattle.std.specs.Prelude.{◌≡◌, ◌↔◌, ◌≤◌, IsTrue};
ghost use Rattle.ae_formula_sizes.specs.Inner.Counted as spec;

/// How many nodes there are, and at how many levels they stand one inside another.
#[derive(Clone, Copy)]
pub(crate) struct Size {
    pub(crate) nodes: u64,
    pub(crate) levels: u64,
}

/// No nodes.
pub(crate) fn nothing() -> Size
    ensures { result ≡ spec.nothing }
{
    Size {
        nodes: 0,
        levels: 0,
    }
}

/// A node without parts.
pub(crate) fn leaf() -> Size
    ensures { result ≡ spec.leaf }
{
    Size {
        nodes: 1,
        levels: 1,
    }
}

/// Nodes beside other ones.
pub(crate) fn both(left: Size, right: Size) -> Size
    ensures { result ≡ spec.both left right }
{
    Size {
        nodes: left.nodes.saturating_add(right.nodes).min(1_000_001),
        levels: left.levels.max(right.levels),
    }
}

/// A node round its parts.
pub(crate) fn round(parts: Size) -> Size
    ensures { result ≡ spec.round parts }
{
    Size {
        nodes: parts.nodes.saturating_add(1).min(1_000_001),
        levels: parts.levels.saturating_add(1).min(1_000_001),
    }
}

/// Whether there are at most 1,000,000 nodes at 4,000 levels.
pub(crate) fn is_within(size: Size) -> bool
    ensures { IsTrue result ↔ ((size.nodes ≤ 1000000) × (size.levels ≤ 4000)) }
{
    size.nodes <= 1_000_000 && size.levels <= 4_000
}
