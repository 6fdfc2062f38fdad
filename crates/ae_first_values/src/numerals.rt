//! The values of numerals.
ghost use Rattle.std.specs.Prelude.{◌≡◌, pos, ◌<ℤ◌, [], IfOk, OnErr};
ghost use Rattle.ae_math.specs.Fractions.{ratio};
ghost use Rattle.ae_math.specs.Forms.{number};
ghost use Rattle.ae_core.specs.declared.terms.Term.{Num};
ghost use Rattle.ae_num.specs.Forms.{meaning, SameMeaning};
ghost use Rattle.ae_num.specs.Limits.{FitsLimits};
ghost use Rattle.ae_store.specs.Shapes.{shapes};
ghost use Rattle.ae_store.specs.Terms.{terms, named};
ghost use Rattle.ae_just.specs.Steps.{Fits};
ghost use Rattle.ae_state_steps.specs.ValueSteps.{IsNumberName, IsWritten, value_side, name_side};
ghost use Rattle.ae_value_steps.specs.Stating.{AddsStep};

use crate::numbers::Given;
use ae_just::justs::Justs;
use ae_num::forms::{Name, fraction};
use ae_store::store::Store;
use ae_value_steps::state_numeral;
use std::alloc::{AllocError, Global};

/// The value of a numeral, with the step that states it.
pub fn numeral(
    alloc: Global,
    store: &Store,
    justs: &mut Justs,
    name: Name,
    top: i128,
    bottom: i128,
    real: bool,
) -> Result<Given, AllocError>
    requires fits { Fits store.now.signature (terms (shapes store.now.nodes)) justs.old }
    requires name { IsNumberName store.now.signature (terms (shapes store.now.nodes)) real name }
    requires is { named (terms (shapes store.now.nodes)) name ≡ Num top bottom real }
    requires bottom { pos 0 <ℤ bottom }
    requires top_within { FitsLimits top }
    requires bottom_within { FitsLimits bottom }
    ensures numeral { IfOk result (λ given. SameMeaning (meaning given.value) (number (ratio top bottom))) }
    ensures written { IfOk result (λ given. IsWritten store.now.signature (terms (shapes store.now.nodes)) real name given.value) }
    ensures added { IfOk result (λ given. AddsStep justs.old justs.new given.step (name_side real name given.value) (value_side real given.value) []) }
    ensures err { OnErr result (justs.new ≡ justs.old) }
    ensures fits { Fits store.now.signature (terms (shapes store.now.nodes)) justs.new }
{
    let value = fraction(alloc, top, bottom);
    let step = state_numeral(alloc, store, justs, name, &value, real)?;
    Ok(Given { value, step })
}
