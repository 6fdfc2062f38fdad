//! Derivations of what several steps state, one behind the other.
ghost use Rattle.std.specs.Prelude.{◌≡◌, ◌<◌, ◌+◌, length, slice_get, Some, IfOk};
ghost use Rattle.std.specs.List.{AllByRecursion};
ghost use Rattle.ae_store.specs.Shapes.{shapes};
ghost use Rattle.ae_store.specs.Terms.{terms};
ghost use Rattle.ae_just.specs.Steps.{Fits};
ghost use Rattle.ae_pmap.specs.Forest.{present};
ghost use Rattle.ae_conflicts.specs.Conflicting.{AreOpposed};
ghost use Rattle.ae_conflicts.specs.Inner.Joining.{AreGathered};

use crate::assumed::Assumed;
use crate::reasons::{alone, both, derived};
use ae_core::lists::List;
use ae_just::justs::Justs;
use ae_pmap::Pmap;
use ae_store::store::Store;
use ae_theory::theory::Derived;
use std::alloc::{AllocError, Global};

/// What was derived so far, and the lines of the steps.
#[derive(Drop)]
pub(crate) struct Gathered {
    pub(crate) derived: Derived,
    pub(crate) places: List<usize>,
}

/// The lines of one step more.
fn gather(
    alloc: Global,
    store: &Store,
    justs: &Justs,
    assumed: &Pmap<Assumed>,
    positive: usize,
    negative: usize,
    steps: &[usize],
    at: usize,
    gathered: Gathered,
) -> Result<Gathered, AllocError>
    requires at { at < length steps.now }
    requires fits { Fits store.now.signature (terms (shapes store.now.nodes)) justs.now }
    requires own { AreOpposed store.now.signature (terms (shapes store.now.nodes)) justs.now (present assumed.now) positive negative steps.now }
    requires gathered { AreGathered store.now.signature (terms (shapes store.now.nodes)) justs.now (present assumed.now) positive negative steps.now at gathered }
    ensures { IfOk result (λ g. AreGathered store.now.signature (terms (shapes store.now.nodes)) justs.now (present assumed.now) positive negative steps.now (at + 1) g) }
{
    let next = derived(store, justs, steps[at])?;
    let Gathered {
        derived: before,
        mut places,
    } = gathered;
    let derived = both(alloc, before, next)?;
    places.push(derived.deriv.lines.len() - 1)?;
    Ok(Gathered { derived, places })
}

/// The two literals, and the lines of all steps.
pub(crate) fn gather_all(
    alloc: Global,
    store: &Store,
    justs: &Justs,
    assumed: &Pmap<Assumed>,
    positive: usize,
    negative: usize,
    steps: &[usize],
) -> Result<Gathered, AllocError>
    requires fits { Fits store.now.signature (terms (shapes store.now.nodes)) justs.now }
    requires own { AreOpposed store.now.signature (terms (shapes store.now.nodes)) justs.now (present assumed.now) positive negative steps.now }
    ensures { IfOk result (λ g. AreGathered store.now.signature (terms (shapes store.now.nodes)) justs.now (present assumed.now) positive negative steps.now (length steps.now) g) }
{
    let first = alone(alloc, assumed, positive)?;
    let second = alone(alloc, assumed, negative)?;
    let derived = both(alloc, first, second)?;
    let places = List::new(alloc);
    let mut gathered = Gathered { derived, places };
    for at in 0..steps.len() {
        gathered = gather(
            alloc, store, justs, assumed, positive, negative, steps, at, gathered,
        )?;
    }
    Ok(gathered)
}
