//! The number of a name, with the step that states it.
ghost use Rattle.std.specs.Prelude.{◌≡◌, [], Some, IfOk, IfSome, IfNone};
ghost use Rattle.ae_linear.specs.declared.rows.Row.{Row};
ghost use Rattle.ae_linear.specs.Rows.{row_at};
ghost use Rattle.ae_store.specs.Growing.{IsFront};
ghost use Rattle.ae_store.specs.Shapes.{shapes};
ghost use Rattle.ae_store.specs.Terms.{terms};
ghost use Rattle.ae_just.specs.Steps.{Fits};
ghost use Rattle.ae_state_steps.specs.ValueSteps.{IsNumberName};
ghost use Rattle.ae_value_steps.specs.Stating.{IsStated};
ghost use Rattle.ae_value_table.specs.Table.{number_at, just_at};
ghost use Rattle.ae_value_fitting.specs.Fitting.{AreSaid};
ghost use Rattle.ae_value_fitting.specs.Sources.{RestsOnValues};

use ae_first_values::Given;
use ae_just::justs::Justs;
use ae_num::forms::{Name, single};
use ae_store::store::Store;
use ae_value_steps::state_own;
use ae_value_table::Values;
use std::alloc::{AllocError, Global};

/// The number of the step that states the row of a name, where the name has a row.
fn row_step(values: &Values, name: Name) -> Option<usize>
    ensures some { IfSome result (λ step. (row : Row) × (row_at values.now.rows name ≡ Some row) × (just_at values.now name ≡ Some step)) }
    ensures none { IfNone result ((row : Row) (step : _) → row_at values.now.rows name ≡ Some row → just_at values.now name ≡ Some step → ⊥) }
{
    let _row = values.row(name)?;
    let step = values.just(name)?;
    Some(step)
}

/// The number of a name, with the step that states it. A name without a row is its own number, which a new step states.
///
/// What the step rests on, steps that say values rested on before.
pub(crate) fn given(
    alloc: Global,
    values: &Values,
    store: &Store,
    justs: &mut Justs,
    name: Name,
    real: bool,
) -> Result<Given, AllocError>
    requires fits { Fits store.now.signature (terms (shapes store.now.nodes)) justs.old }
    requires said { AreSaid store.now.signature (terms (shapes store.now.nodes)) justs.old values.now }
    requires name { IsNumberName store.now.signature (terms (shapes store.now.nodes)) real name }
    ensures number { IfOk result (λ given. given.value ≡ number_at values.now name) }
    ensures stated { IfOk result (λ given. IsStated store.now.signature (terms (shapes store.now.nodes)) justs.new real name given.value given.step) }
    ensures rests { IfOk result (λ given. RestsOnValues justs.old justs.new values.now [] given.step) }
    ensures front { IsFront justs.old justs.new }
    ensures fits { Fits store.now.signature (terms (shapes store.now.nodes)) justs.new }
{
    match row_step(values, name) {
        Some(step) => {
            let value = values.number(name)?;
            Ok(Given { value, step })
        }
        None => {
            let value = single(alloc, name)?;
            let step = state_own(alloc, store, justs, name, &value, real)?;
            Ok(Given { value, step })
        }
    }
}
