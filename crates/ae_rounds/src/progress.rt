//! What a search comes to.

use ae_core::lists::List;
use ae_journal::systems::PointAt;

/// How a search ends.
#[derive(Drop)]
pub enum End {
    /// The lines end with the empty clause.
    Refuted,
    /// Nothing is left to do; the point satisfies the inequalities.
    Open(List<PointAt>),
}

/// What a search adds where nothing is left to do for the solver.
#[derive(Clone, Copy)]
pub enum Added {
    /// Counted lines of the journal.
    Lines,
    /// Blocks that are opened, and no counted line.
    Blocks,
    /// The clause of the order of two numbers, and no counted line.
    Order,
}

/// What a step of a search, or a turn, comes to.
#[derive(Drop)]
pub enum Progress {
    /// The search is at its end.
    Ended(End),
    /// It goes on.
    Added(Added),
}
