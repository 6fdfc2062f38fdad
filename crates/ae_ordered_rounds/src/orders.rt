//! What is kept of the inequalities from one round to the next.
ghost use Rattle.std.specs.Prelude.{◌≡◌, Some, None};

use ae_core::lists::List;
use ae_solved_orders::KeptRows;
use ae_tight_sides::sides::Sides;
use std::mem::replace;

/// The rows that are kept, if any, and numbers whose orders may be wanted, two by two: the sides of the rows of the last tight sum, or numbers that were equal at
/// the last point.
#[derive(Drop)]
pub struct Orders {
    pub kept: Option<KeptRows>,
    pub tight: Option<List<Sides>>,
}

impl Orders {
    /// No rows, and no sides.
    pub fn new() -> Orders
        ensures { result ≡ record { kept = None; tight = None } }
    {
        Orders {
            kept: None,
            tight: None,
        }
    }

    /// The rows that are kept; none are then.
    pub(crate) fn take(&mut self) -> Option<KeptRows>
        ensures { result ≡ self.old.kept }
    {
        replace(&mut self.kept, None)
    }

    /// Keeps rows.
    pub(crate) fn keep(&mut self, rows: KeptRows)
        ensures { self.new ≡ record { kept = Some rows; tight = self.old.tight } }
    {
        self.kept = Some(rows);
    }

    /// Remembers sides, in place of those that were remembered.
    pub(crate) fn remember(&mut self, sides: List<Sides>)
        ensures { self.new ≡ record { kept = self.old.kept; tight = Some sides } }
    {
        self.tight = Some(sides);
    }

    /// Remembers no sides any more.
    pub(crate) fn forget(&mut self)
        ensures { self.new ≡ record { kept = self.old.kept; tight = None } }
    {
        self.tight = None;
    }
}
