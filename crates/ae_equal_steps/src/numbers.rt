//! Names of one number.
ghost use Rattle.std.specs.Prelude.{◌≡◌, ◌<◌, ◌↔◌, [], length, slice_get, Some, IsTrue, IfOk};
ghost use Rattle.ae_core.specs.declared.terms.Sort.{Real};
ghost use Rattle.ae_store.specs.Growing.{IsFront};
ghost use Rattle.ae_store.specs.Shapes.{shapes};
ghost use Rattle.ae_store.specs.Terms.{terms};
ghost use Rattle.ae_just.specs.Steps.{Fits};
ghost use Rattle.ae_state_steps.specs.ValueSteps.{IsWritten, StatesEqual};
ghost use Rattle.ae_value_steps.specs.Stating.{IsStated};
ghost use Rattle.ae_value_table.specs.Table.{number_at};
ghost use Rattle.ae_value_table.specs.declared.patterns.Entry.{Entry as EntrySpec};
ghost use Rattle.ae_value_fitting.specs.Fitting.{AreSaid};
ghost use Rattle.ae_value_fitting.specs.Sources.{RestsOnValues};
ghost use Rattle.ae_equal_steps.specs.Inner.Pairs.{IsHeld, AreSameNumbers};

use crate::said::said_by;
use ae_core::equality::same_sort;
use ae_core::terms::Sort;
use ae_just::justs::Justs;
use ae_num::forms::{Lin, Name};
use ae_store::store::Store;
use ae_value_steps::{Valued, state_equal, state_own};
use ae_value_table::Values;
use std::alloc::{AllocError, Global};

/// The number of a step that states the number of a name: the one that says it, and a new one where the name is its own number. It rests on the steps
/// that say values.
pub fn number_step(
    alloc: Global,
    values: &Values,
    store: &Store,
    justs: &mut Justs,
    name: Name,
    number: &Lin,
    real: bool,
) -> Result<usize, AllocError>
    requires fits { Fits store.now.signature (terms (shapes store.now.nodes)) justs.old }
    requires said { AreSaid store.now.signature (terms (shapes store.now.nodes)) justs.old values.now }
    requires written { IsWritten store.now.signature (terms (shapes store.now.nodes)) real name number.now }
    requires number { number.now ≡ number_at values.now name }
    ensures stated { IfOk result (λ id. IsStated store.now.signature (terms (shapes store.now.nodes)) justs.new real name number.now id) }
    ensures rests { IfOk result (λ id. RestsOnValues justs.old justs.new values.now [] id) }
    ensures front { IsFront justs.old justs.new }
    ensures fits { Fits store.now.signature (terms (shapes store.now.nodes)) justs.new }
{
    match values.row(name) {
        None => state_own(alloc, store, justs, name, number, real),
        Some(_row) => Ok(said_by(values, name)),
    }
}

/// Whether a name is of the sort `real`.
fn is_real(values: &Values, name: Name) -> bool
    requires { name < length values.now.entries }
    ensures { (entry : EntrySpec) → slice_get values.now.entries name ≡ Some entry → IsTrue result ↔ (entry.sort ≡ Real) }
{
    let real = Sort::Real;
    same_sort(&values.entry(name).sort, &real)
}

/// Adds the step that two names of one number are equal.
pub(crate) fn equal_numbers(
    alloc: Global,
    values: &Values,
    store: &Store,
    justs: &mut Justs,
    left: Name,
    right: Name,
) -> Result<usize, AllocError>
    requires held { IsHeld store.now justs.old values.now }
    requires same { AreSameNumbers store.now.signature (terms (shapes store.now.nodes)) values.now left right }
    ensures states { IfOk result (λ id. StatesEqual justs.new id left right) }
    ensures rests { IfOk result (λ id. RestsOnValues justs.old justs.new values.now [] id) }
    ensures front { IsFront justs.old justs.new }
    ensures fits { Fits store.now.signature (terms (shapes store.now.nodes)) justs.new }
{
    let real = is_real(values, left);
    let first_number = values.number(left)?;
    let second_number = values.number(right)?;
    let first = number_step(alloc, values, store, justs, left, &first_number, real)?;
    let second = number_step(alloc, values, store, justs, right, &second_number, real)?;
    let of_left = Valued {
        name: left,
        value: &first_number,
        step: first,
    };
    let of_right = Valued {
        name: right,
        value: &second_number,
        step: second,
    };
    state_equal(alloc, store, justs, &of_left, &of_right, real)
}
