//! The lines that say a kept row.
ghost use Rattle.std.specs.Prelude.{◌≡◌, ◌<◌, ℕ, true, false, Some, length, slice_get, IfOk};
ghost use Rattle.std.specs.List.{AllByRecursion, flat_map};
ghost use Rattle.ae_num.specs.Forms.{IsNormal};
ghost use Rattle.ae_store.specs.Shapes.{shapes};
ghost use Rattle.ae_store.specs.Terms.{terms};
ghost use Rattle.ae_bounds.specs.declared.rows.Row.{Row as RowValue};
ghost use Rattle.ae_bounds.specs.Rounding.{AreRounded};
ghost use Rattle.ae_bounds.specs.Findings.{AreFounded};
ghost use Rattle.ae_bound_blocks.specs.Ancestors.{AreTagsOf, hyps_of};
ghost use Rattle.ae_bound_blocks.specs.Said.{kept, IsGiven};
ghost use Rattle.ae_bound_solve.specs.Given.{AreAllGiven, AreOpaqueNames};

use crate::sorts::is_real;
use ae_bound_blocks::derived::{Grounds, derive};
use ae_bound_blocks::given::Given;
use ae_bounds::rows::Row;
use ae_store::store::Store;
use std::alloc::{AllocError, Global};

/// Allowed lines of which the last says the row of this number, and the tags of the assumed ones that it is made of.
///
/// `given` has by its number what gives the row of each tag. The hypotheses are those of the tags, in their order.
pub fn derive_row(
    alloc: Global,
    store: &Store,
    rows: &[Row],
    place: usize,
    given: &[Given],
) -> Result<Grounds, AllocError>
    requires normal { AllByRecursion (λ row. IsNormal row.lin) rows.now }
    requires founded { AreFounded rows.now }
    requires were_rounded { AreRounded rows.now }
    requires place { place < length rows.now }
    requires given { AreAllGiven store.now.signature (terms (shapes store.now.nodes)) rows.now given.now }
    requires opaque { AreOpaqueNames (terms (shapes store.now.nodes)) rows.now }
    ensures said { IfOk result (λ g. (row : RowValue) → slice_get rows.now place ≡ Some row → IsGiven store.now.signature (terms (shapes store.now.nodes)) g.given.real (kept row) g.given) }
    ensures sort { IfOk result (λ g. (row : RowValue) → slice_get rows.now place ≡ Some row → row.integral ≡ true → g.given.real ≡ false) }
    ensures tags { IfOk result (λ g. AreTagsOf rows.now place g.tags) }
    ensures hyps { IfOk result (λ g. g.given.deriv.hyps ≡ flat_map (hyps_of given.now) g.tags) }
{
    let real = is_real(rows, given, place);
    derive(alloc, store, rows, place, real, given)
}
