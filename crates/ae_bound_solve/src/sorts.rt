//! The sort of the sides of the rows that a row is made of.
ghost use Rattle.std.specs.Prelude.{ℕ, ◌≡◌, ◌<◌, Bool, Some, None, length, slice_get};
ghost use Rattle.ae_bounds.specs.declared.rows.Row.{Row as RowValue};
ghost use Rattle.ae_bounds.specs.declared.rows.Origin.TheVariants.{Assumed, Combined};
ghost use Rattle.ae_bounds.specs.Findings.{AreFounded};
ghost use Rattle.ae_bound_blocks.specs.declared.given.Given.{Given as GivenLines};
ghost use Rattle.ae_bound_solve.specs.Inner.Sorts.{IsFirstParent, AreGivenWithin, AreOfSort};

use ae_bound_blocks::given::Given;
use ae_bounds::rows::{Origin, Row};

/// The first one of the rows that a row combines.
fn first_parent(row: &Row) -> Option<usize>
    ensures { IsFirstParent row.now.from result }
{
    match row.from {
        Origin::Assumed(_) => None,
        Origin::Combined { lower, .. } => Some(lower),
    }
}

/// The same of the row of this number.
fn parent_at(rows: &[Row], place: usize) -> Option<usize>
    requires { place < length rows.now }
    ensures { (r : RowValue) → slice_get rows.now place ≡ Some r → IsFirstParent r.from result }
{
    let row = &rows[place];
    first_parent(row)
}

/// Whether what gives an assumed row has the sort `real`.
fn given_sort(rows: &[Row], given: &[Given], place: usize) -> bool
    requires place { place < length rows.now }
    requires given { AreGivenWithin rows.now given.now }
    ensures { (r : RowValue) (tag : ℕ) (g : GivenLines) → slice_get rows.now place ≡ Some r → r.from ≡ Assumed tag → slice_get given.now tag ≡ Some g → result ≡ g.real }
{
    match rows[place].from {
        Origin::Assumed(tag) => given[tag].real,
        Origin::Combined { .. } => false,
    }
}

/// Whether the rows that a row is made of have sides of the sort `real`, where all assumed ones have one sort.
pub fn is_real(rows: &[Row], given: &[Given], place: usize) -> bool
    requires place { place < length rows.now }
    requires founded { AreFounded rows.now }
    requires given { AreGivenWithin rows.now given.now }
    ensures { (real : Bool) → AreOfSort rows.now given.now place real → result ≡ real }
{
    let mut at = place;
    let mut parent = parent_at(rows, at);
    'down: while let Some(next) = parent {
        at = next;
        parent = parent_at(rows, at);
    }
    given_sort(rows, given, at)
}
