//! Why conflicts can't hold, by steps that were made short.
ghost use Rattle.std.specs.Prelude.{◌≡◌, true, IfOk};
ghost use Rattle.std.specs.List.{AllByRecursion};
ghost use Rattle.ae_conflicts.specs.Conflicting.{IsConflict};
ghost use Rattle.ae_conflicts.specs.Saying.{tagged};
ghost use Rattle.ae_just.specs.Steps.{Fits};
ghost use Rattle.ae_pmap.specs.Forest.{present};
ghost use Rattle.ae_rules.specs.Built.{IsBuiltEquation};
ghost use Rattle.ae_rules.specs.Derivations.{IsContradictory, clause_ok};
ghost use Rattle.ae_state.specs.Complete.{IsOwnConflict};
ghost use Rattle.ae_state.specs.Fitting.{FitsStore};
ghost use Rattle.ae_state.specs.Names.{assumed_in};
ghost use Rattle.ae_store.specs.Shapes.{shapes};
ghost use Rattle.ae_store.specs.Terms.{terms};
ghost use Rattle.ae_theory.specs.Names.{terms_in};
ghost use Rattle.ae_theory.specs.Noting.{IsBlockOf};

use ae_conflicts::{Assumed, Conflict, explained};
use ae_just::justs::Justs;
use ae_pmap::Pmap;
use ae_short_derivations::shortened;
use ae_state::Holding;
use ae_store::store::Store;
use ae_theory::theory::Explained;
use std::alloc::{AllocError, Global};

/// Why the literals of a conflict can't hold together, by short derivations. Where two literals are opposed, the derivations are those of the steps.
fn explained_short(
    alloc: Global,
    store: &Store,
    justs: &Justs,
    assumed: &Pmap<Assumed>,
    conflict: &Conflict,
) -> Result<Explained, AllocError>
    requires fits { Fits store.now.signature (terms (shapes store.now.nodes)) justs.now }
    requires own { IsConflict store.now.signature (terms (shapes store.now.nodes)) justs.now (present assumed.now) conflict.now }
    ensures contradictory { IfOk result (λ e. IsContradictory store.now.signature e.block) }
    ensures sorted { IfOk result (λ e. clause_ok store.now.signature e.block.deriv.hyps ≡ true) }
    ensures tags { IfOk result (λ e. IsBlockOf (tagged (present assumed.now)) e.block.deriv.hyps e.tags) }
    ensures built { IfOk result (λ e. AllByRecursion (IsBuiltEquation store.now.signature (terms (shapes store.now.nodes))) e.block.deriv.lines) }
{
    match conflict {
        Conflict::Differ { literal, step } => {
            let short = shortened(alloc, store, justs, *step)?;
            let same = Conflict::Differ {
                literal: *literal,
                step: short.step,
            };
            explained(alloc, store, &short.justs, assumed, &same)
        }
        Conflict::Opposed { .. } => explained(alloc, store, justs, assumed, conflict),
        Conflict::Mixed { step } => {
            let short = shortened(alloc, store, justs, *step)?;
            let same = Conflict::Mixed { step: short.step };
            explained(alloc, store, &short.justs, assumed, &same)
        }
        Conflict::Constant { step } => {
            let short = shortened(alloc, store, justs, *step)?;
            let same = Conflict::Constant { step: short.step };
            explained(alloc, store, &short.justs, assumed, &same)
        }
        Conflict::Unsolvable { step } => {
            let short = shortened(alloc, store, justs, *step)?;
            let same = Conflict::Unsolvable { step: short.step };
            explained(alloc, store, &short.justs, assumed, &same)
        }
    }
}

/// Why a conflict's literals can't hold together: by equations of terms that are built of the names. No line says again what an earlier one says.
pub fn explain(
    alloc: Global,
    held: &Holding,
    store: &Store,
    conflict: usize,
) -> Result<Explained, AllocError>
    requires fits { FitsStore held.now store.now }
    requires own { IsOwnConflict held.now conflict }
    ensures contradictory { IfOk result (λ e. IsContradictory store.now.signature e.block) }
    ensures sorted { IfOk result (λ e. clause_ok store.now.signature e.block.deriv.hyps ≡ true) }
    ensures tags { IfOk result (λ e. IsBlockOf (assumed_in held.now) e.block.deriv.hyps e.tags) }
    ensures built { IfOk result (λ e. AllByRecursion (IsBuiltEquation store.now.signature (terms_in store.now)) e.block.deriv.lines) }
{
    let reason = &held.conflicts.as_slice()[conflict];
    explained_short(alloc, store, &held.justs, &held.assumed, reason)
}
