//! Why rows can't hold.
ghost use Rattle.std.specs.Prelude.{◌≡◌, ℕ, IfOk};
ghost use Rattle.std.specs.List.{AllByRecursion, flat_map};
ghost use Rattle.ae_num.specs.Forms.{IsNormal};
ghost use Rattle.ae_core.specs.declared.proofs.Ending.TheVariants.{Zero};
ghost use Rattle.ae_rules.specs.Derivations.{IsContradictory};
ghost use Rattle.ae_store.specs.Shapes.{shapes};
ghost use Rattle.ae_store.specs.Terms.{terms};
ghost use Rattle.ae_bounds.specs.Rounding.{AreRounded};
ghost use Rattle.ae_bounds.specs.Findings.{AreFounded, IsRefutedAt};
ghost use Rattle.ae_bound_blocks.specs.Ancestors.{AreTagsOf, hyps_of};
ghost use Rattle.ae_bound_blocks.specs.Said.{AreBuilt};
ghost use Rattle.ae_bound_solve.specs.Given.{AreAllGiven, AreOpaqueNames};

use crate::sorts::is_real;
use ae_bound_blocks::explaining::explain;
use ae_bound_blocks::given::Given;
use ae_bounds::rows::Row;
use ae_store::store::Store;
use ae_theory::theory::Explained;
use std::alloc::{AllocError, Global};

/// The block of a row that can't hold.
pub fn refuted(
    alloc: Global,
    store: &Store,
    rows: &[Row],
    place: usize,
    given: &[Given],
) -> Result<Explained, AllocError>
    requires normal { AllByRecursion (λ row. IsNormal row.lin) rows.now }
    requires founded { AreFounded rows.now }
    requires were_rounded { AreRounded rows.now }
    requires refuted { IsRefutedAt rows.now place }
    requires given { AreAllGiven store.now.signature (terms (shapes store.now.nodes)) rows.now given.now }
    requires opaque { AreOpaqueNames (terms (shapes store.now.nodes)) rows.now }
    ensures contradictory { IfOk result (λ e. IsContradictory store.now.signature e.block) }
    ensures zero { IfOk result (λ e. (line : ℕ) × (e.block.ending ≡ Zero line)) }
    ensures tags { IfOk result (λ e. AreTagsOf rows.now place e.tags) }
    ensures hyps { IfOk result (λ e. e.block.deriv.hyps ≡ flat_map (hyps_of given.now) e.tags) }
    ensures built { IfOk result (λ e. AreBuilt store.now.signature (terms (shapes store.now.nodes)) e.block.deriv.lines) }
{
    let real = is_real(rows, given, place);
    explain(alloc, store, rows, place, real, given)
}
