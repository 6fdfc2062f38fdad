//! The block of a row that can't hold.
ghost use Rattle.std.specs.Prelude.{◌≡◌, ℕ, IfOk};
ghost use Rattle.std.specs.List.{AllByRecursion, flat_map};
ghost use Rattle.ae_num.specs.Forms.{IsNormal};
ghost use Rattle.ae_rules.specs.Derivations.{IsContradictory};
ghost use Rattle.ae_core.specs.declared.proofs.Ending.TheVariants.{Zero};
ghost use Rattle.ae_store.specs.Shapes.{shapes};
ghost use Rattle.ae_store.specs.Terms.{terms};
ghost use Rattle.ae_bounds.specs.Rounding.{AreRounded};
ghost use Rattle.ae_bounds.specs.Findings.{AreFounded, IsRefutedAt};
ghost use Rattle.ae_bound_blocks.specs.Ancestors.{AreTagsOf, hyps_of};
ghost use Rattle.ae_bound_blocks.specs.Said.{AreBuilt, AreGiven, AreOpaqueRounded};

use crate::derived::{Grounds, derive};
use crate::emitting::last_line;
use crate::given::Given;
use ae_bounds::rows::Row;
use ae_core::proofs::{Block, Ending};
use ae_store::store::Store;
use ae_theory::theory::Explained;
use std::alloc::{AllocError, Global};

/// An allowed block that adds up the rows of which a row that can't hold is made, and ends by that one; and the tags of the assumed ones.
///
/// `given` has by its number what gives the row of each tag; `real` says whether these rows are of sort `real`, or of sort `int`.
/// The hypotheses are those of the tags, in their order. Rows of which that one isn't made play no part. A row that was rounded has two lines: what it was, and the
/// rounded one; its names are opaque terms.
pub fn explain(
    alloc: Global,
    store: &Store,
    rows: &[Row],
    place: usize,
    real: bool,
    given: &[Given],
) -> Result<Explained, AllocError>
    requires normal { AllByRecursion (λ row. IsNormal row.lin) rows.now }
    requires founded { AreFounded rows.now }
    requires refuted { IsRefutedAt rows.now place }
    requires were_rounded { AreRounded rows.now }
    requires opaque { AreOpaqueRounded (terms (shapes store.now.nodes)) real rows.now place }
    requires given { AreGiven store.now.signature (terms (shapes store.now.nodes)) real rows.now place given.now }
    ensures contradictory { IfOk result (λ e. IsContradictory store.now.signature e.block) }
    ensures zero { IfOk result (λ e. (line : ℕ) × (e.block.ending ≡ Zero line)) }
    ensures tags { IfOk result (λ e. AreTagsOf rows.now place e.tags) }
    ensures hyps { IfOk result (λ e. e.block.deriv.hyps ≡ flat_map (hyps_of given.now) e.tags) }
    ensures built { IfOk result (λ e. AreBuilt store.now.signature (terms (shapes store.now.nodes)) e.block.deriv.lines) }
{
    let grounds = derive(alloc, store, rows, place, real, given)?;
    let Grounds { given: lines, tags } = grounds;
    let Given {
        deriv,
        multiple: _,
        real: _,
    } = lines;
    let line = last_line(&deriv);
    let ending = Ending::Zero { line };
    Ok(Explained {
        block: Block { deriv, ending },
        tags,
    })
}
