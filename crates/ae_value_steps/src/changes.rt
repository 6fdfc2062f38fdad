//! The steps of values that change: of a name that is equal to another, and of a value in which another was put for a name.
ghost use Rattle.std.specs.Prelude.{◌≡◌, ◌*ℤ◌, [], ◌∷◌, IfOk, OnErr};
ghost use native.Mathlib.Decide.{ℕ_discrete};
ghost use Rattle.ae_math.specs.Forms.{substitute};
ghost use Rattle.ae_num.specs.Forms.{meaning, SameMeaning, factor_of};
ghost use Rattle.ae_num.specs.Limits.{FitsLimits};
ghost use Rattle.ae_num.specs.declared.forms.Lin.{Lin};
ghost use Rattle.ae_store.specs.Shapes.{shapes};
ghost use Rattle.ae_store.specs.Terms.{terms};
ghost use Rattle.ae_just.specs.Steps.{Fits};
ghost use Rattle.ae_state_steps.specs.ValueSteps.{IsWritten, StatesEqual, value_side, name_side};
ghost use Rattle.ae_value_steps.specs.Stating.{AddsStep, IsStated};

use crate::adding::{Valued, add_value, two_of};
use crate::numbers::{product, quotient};
use ae_core::proofs::Scaled;
use ae_denominators::laws::values_put_are_over_the_product;
use ae_just::justs::Justs;
use ae_num::forms::{Lin, Name};
use ae_state_steps::laws::{changed_values_have_a_step, covered_names_have_a_step};
use ae_store::store::Store;
use std::alloc::{AllocError, Global};

/// What is kept of a value before another is put for a name in it: its denominator, the factor of the name, and the number of the step that states it.
#[derive(Clone, Copy)]
pub struct Before {
    pub den: i128,
    pub factor: i128,
    pub step: usize,
}

/// Adds the step that states the value of a name that a step equates with another, which has that value.
pub fn state_covered(
    alloc: Global,
    store: &Store,
    justs: &mut Justs,
    name: Name,
    of: &Valued<'_>,
    equal: usize,
    real: bool,
) -> Result<usize, AllocError>
    requires fits { Fits store.now.signature (terms (shapes store.now.nodes)) justs.old }
    requires written { IsWritten store.now.signature (terms (shapes store.now.nodes)) real name of.now.value.now }
    requires of { IsStated store.now.signature (terms (shapes store.now.nodes)) justs.old real of.now.name of.now.value.now of.now.step }
    requires equal { StatesEqual justs.old equal name of.now.name }
    ensures added { IfOk result (λ id. AddsStep justs.old justs.new id (name_side real name of.now.value.now) (value_side real of.now.value.now) (equal ∷ of.now.step ∷ [])) }
    ensures err { OnErr result (justs.new ≡ justs.old) }
    ensures fits { Fits store.now.signature (terms (shapes store.now.nodes)) justs.new }
{
    covered_names_have_a_step();
    let first = Scaled {
        factor: of.value.den,
        line: equal,
    };
    let second = Scaled {
        factor: 1,
        line: of.step,
    };
    let parts = two_of(alloc, first, second)?;
    add_value(alloc, store, justs, name, of.value, real, 1, parts)
}

/// Adds the step that states the value of a name after the value of another name was put for that name in it.
pub fn state_put(
    alloc: Global,
    store: &Store,
    justs: &mut Justs,
    name: Name,
    value: &Lin,
    before: Before,
    put: &Valued<'_>,
    real: bool,
) -> Result<usize, AllocError>
    requires fits { Fits store.now.signature (terms (shapes store.now.nodes)) justs.old }
    requires written { IsWritten store.now.signature (terms (shapes store.now.nodes)) real name value.now }
    requires before { (old : Lin) × IsStated store.now.signature (terms (shapes store.now.nodes)) justs.old real name old before.step × (before.den ≡ old.den)
        × (before.factor ≡ factor_of old.parts put.now.name) × SameMeaning (meaning value.now) (substitute ℕ_discrete (meaning old) put.now.name (meaning put.now.value.now)) }
    requires put { IsStated store.now.signature (terms (shapes store.now.nodes)) justs.old real put.now.name put.now.value.now put.now.step }
    requires within { FitsLimits (before.den *ℤ put.now.value.now.den) }
    ensures added { IfOk result (λ id. AddsStep justs.old justs.new id (name_side real name value.now) (value_side real value.now) (before.step ∷ put.now.step ∷ [])) }
    ensures err { OnErr result (justs.new ≡ justs.old) }
    ensures fits { Fits store.now.signature (terms (shapes store.now.nodes)) justs.new }
{
    changed_values_have_a_step();
    values_put_are_over_the_product();
    let times = quotient(product(before.den, put.value.den), value.den);
    let first = Scaled {
        factor: put.value.den,
        line: before.step,
    };
    let second = Scaled {
        factor: before.factor,
        line: put.step,
    };
    let parts = two_of(alloc, first, second)?;
    add_value(alloc, store, justs, name, value, real, times, parts)
}
