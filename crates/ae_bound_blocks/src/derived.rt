//! The lines that say a row.
ghost use Rattle.std.specs.Prelude.{◌≡◌, ◌<◌, ◌+◌, ℕ, Some, length, slice_get, take, IfOk};
ghost use Rattle.std.specs.List.{AllByRecursion, flat_map};
ghost use Rattle.ae_num.specs.Forms.{IsNormal};
ghost use Rattle.ae_store.specs.Shapes.{shapes};
ghost use Rattle.ae_store.specs.Terms.{terms};
ghost use Rattle.ae_bounds.specs.declared.rows.Row.{Row as RowValue};
ghost use Rattle.ae_bounds.specs.Rounding.{AreRounded};
ghost use Rattle.ae_bounds.specs.Findings.{AreFounded};
ghost use Rattle.ae_bound_blocks.specs.Ancestors.{AreTagsOf, hyps_of};
ghost use Rattle.ae_bound_blocks.specs.Said.{kept, IsGiven, AreGiven, AreOpaqueRounded};

use crate::ancestors::ancestors;
use crate::emitting::{Emitted, emit};
use crate::given::Given;
use ae_bounds::rows::Row;
use ae_core::lists::List;
use ae_core::proofs::Deriv;
use ae_store::store::Store;
use std::alloc::{AllocError, Global};

/// Why a row holds: lines of which the last says it, and the tags of the assumed rows that it is made of.
#[derive(Drop)]
pub struct Grounds {
    pub given: Given,
    pub tags: List<usize>,
}

/// Lines that say a row, by which number it is multiplied in the last of them, and of which sort its sides are.
fn lines_of(row: &Row, deriv: Deriv, real: bool) -> Given
    ensures { result ≡ record { deriv = deriv; multiple = row.now.lin.den; real = real } }
{
    Given {
        deriv,
        multiple: row.lin.den,
        real,
    }
}

/// Allowed lines of which the last says the row of this number, and the tags of the assumed ones that it is made of.
///
/// `given` has by its number what gives the row of each tag; `real` says whether these rows are of sort `real`, or of sort `int`.
/// The hypotheses are those of the tags, in their order. Rows of which that one isn't made play no part. A row that was rounded has two lines: what it was, and the
/// rounded one; its names are opaque terms.
pub fn derive(
    alloc: Global,
    store: &Store,
    rows: &[Row],
    place: usize,
    real: bool,
    given: &[Given],
) -> Result<Grounds, AllocError>
    requires normal { AllByRecursion (λ row. IsNormal row.lin) rows.now }
    requires founded { AreFounded rows.now }
    requires place { place < length rows.now }
    requires were_rounded { AreRounded rows.now }
    requires opaque { AreOpaqueRounded (terms (shapes store.now.nodes)) real rows.now place }
    requires given { AreGiven store.now.signature (terms (shapes store.now.nodes)) real rows.now place given.now }
    ensures said { IfOk result (λ g. (row : RowValue) → slice_get rows.now place ≡ Some row → IsGiven store.now.signature (terms (shapes store.now.nodes)) real (kept row) g.given) }
    ensures sort { IfOk result (λ g. g.given.real ≡ real) }
    ensures tags { IfOk result (λ g. AreTagsOf rows.now place g.tags) }
    ensures hyps { IfOk result (λ g. g.given.deriv.hyps ≡ flat_map (hyps_of given.now) g.tags) }
{
    let first = &rows[..place + 1];
    let marks = ancestors(alloc, first, true)?;
    let emitted = emit(alloc, store, real, first, given, &marks)?;
    let Emitted {
        deriv,
        tags,
        places: _,
    } = emitted;
    let row = &rows[place];
    let lines = lines_of(row, deriv, real);
    Ok(Grounds { given: lines, tags })
}
