//! The number that the next name gets.
ghost use Rattle.std.specs.Prelude.{◌≡◌, ◌<◌, ℕ, Bool, length, slice_get, Some, IfOk, IfErr, IfSome, IfNone};
ghost use Rattle.ae_rules.specs.Linear.{form, is_number};
ghost use Rattle.ae_store.specs.Growing.{IsFront};
ghost use Rattle.ae_store.specs.Shapes.{shapes};
ghost use Rattle.ae_store.specs.Terms.{terms, named};
ghost use Rattle.ae_just.specs.Steps.{Fits};
ghost use Rattle.ae_state_steps.specs.ValueSteps.{IsNumberName};
ghost use Rattle.ae_strips.specs.Stripping.{StripsTo};
ghost use Rattle.ae_value_table.specs.Table.{number_at, leaf_at};
ghost use Rattle.ae_value_fitting.specs.Fitting.{AreSaid};
ghost use Rattle.ae_value_fitting.specs.Refusals.{IfNumber};
ghost use Rattle.ae_entering.specs.Firsts.{AreFirst};
ghost use Rattle.ae_take_in.specs.Computing.{IsComputed};
ghost use Rattle.ae_take_in.specs.Widths.{IsOperandWidth};
ghost use Rattle.ae_take_in.specs.Inner.Next.{AreBelow, IsNextNumber};

use crate::computing::first_number;
use crate::covering::covered_number;
use ae_first_values::Given;
use ae_just::justs::Justs;
use ae_num::forms::Name;
use ae_store::store::Store;
use ae_value_fitting::Refused;
use ae_value_table::Values;
use std::alloc::Global;

/// The number that the next name gets, which arithmetic computes or which is that of another name; `None` where it is its own number.
pub(crate) fn next_number(
    alloc: Global,
    values: &Values,
    store: &Store,
    constants: &[bool],
    justs: &mut Justs,
    name: Name,
    real: bool,
) -> Result<Option<Given>, Refused>
    requires fits { Fits store.now.signature (terms (shapes store.now.nodes)) justs.old }
    requires said { AreSaid store.now.signature (terms (shapes store.now.nodes)) justs.old values.now }
    requires name { IsNumberName store.now.signature (terms (shapes store.now.nodes)) real name }
    requires within { name < length store.now.nodes }
    requires first { AreFirst store.now.signature (terms (shapes store.now.nodes)) name (number_at values.now) (leaf_at values.now) }
    requires below { AreBelow name values.now }
    requires one_each { length constants.now ≡ length (terms (shapes store.now.nodes)) }
    requires constants { (n : ℕ) (b : Bool) → slice_get constants.now n ≡ Some b → b ≡ is_number (form (named (terms (shapes store.now.nodes)) n)) }
    ensures some { IfOk result (λ o. IfSome o (λ given. IsNextNumber store.now.signature (terms (shapes store.now.nodes)) justs.old justs.new values.now real name given)) }
    ensures computed { IfOk result (λ o. IfNone o (IsComputed (terms (shapes store.now.nodes)) name → ⊥)) }
    ensures strips { IfOk result (λ o. IfNone o (StripsTo (terms (shapes store.now.nodes)) name name)) }
    ensures wide { IfErr result (λ refused. IfNumber refused (λ width. IsOperandWidth (terms (shapes store.now.nodes)) (number_at values.now) name width)) }
    ensures front { IsFront justs.old justs.new }
    ensures fits { Fits store.now.signature (terms (shapes store.now.nodes)) justs.new }
{
    let _len = store.len();
    let first = first_number(alloc, values, store, constants, justs, name, real)?;
    match first {
        Some(given) => Ok(Some(given)),
        None => {
            let covered = covered_number(alloc, values, store, justs, name, real)?;
            Ok(covered)
        }
    }
}
