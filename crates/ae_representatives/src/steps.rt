//! Names with their representatives.
ghost use Rattle.std.specs.Prelude.{◌≡◌, IfOk};
ghost use Rattle.std.specs.List.{AllByRecursion};
ghost use Rattle.ae_base.specs.Relations.{Pairwise};
ghost use Rattle.ae_store.specs.Growing.{IsFront};
ghost use Rattle.ae_store.specs.Shapes.{shapes};
ghost use Rattle.ae_store.specs.Terms.{terms};
ghost use Rattle.ae_just.specs.Steps.{Fits};
ghost use Rattle.ae_settled.specs.Valued.{AreValues};
ghost use Rattle.ae_value_table.specs.Table.{held};
ghost use Rattle.ae_value_fitting.specs.Fitting.{system_in, ArePatterns, AreSaid};
ghost use Rattle.ae_representatives.specs.Equal.{IsRepresented, IsEqualTo};

use ae_core::lists::List;
use ae_equal_steps::equal_step;
use ae_just::justs::Justs;
use ae_num::forms::Name;
use ae_store::store::Store;
use ae_sweeps::representative;
use ae_value_table::Values;
use std::alloc::{AllocError, Global};

/// Adds, for each of the names, the step that it is equal to its representative. They rest on the steps that say values.
pub fn equal_to_representatives(
    alloc: Global,
    values: &Values,
    justs: &mut Justs,
    store: &Store,
    names: &[Name],
    reps: &[Name],
) -> Result<List<usize>, AllocError>
    requires fits { Fits store.now.signature (terms (shapes store.now.nodes)) justs.old }
    requires patterns { ArePatterns store.now.signature (terms (shapes store.now.nodes)) (held values.now) }
    requires values { AreValues store.now.signature (system_in (terms (shapes store.now.nodes)) values.now) }
    requires said { AreSaid store.now.signature (terms (shapes store.now.nodes)) justs.old values.now }
    requires same { AllByRecursion (IsRepresented store.now.signature (terms (shapes store.now.nodes)) values.now reps.now) names.now }
    ensures equal { IfOk result (λ ids. Pairwise (IsEqualTo justs.old justs.new values.now reps.now) names.now ids) }
    ensures front { IsFront justs.old justs.new }
    ensures fits { Fits store.now.signature (terms (shapes store.now.nodes)) justs.new }
{
    let mut steps = List::new(alloc);
    for name in names {
        let other = representative(reps, *name);
        let step = equal_step(alloc, values, store, justs, *name, other)?;
        steps.push(step)?;
    }
    Ok(steps)
}
