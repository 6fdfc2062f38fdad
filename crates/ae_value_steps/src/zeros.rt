//! What follows from the values of names that are equal, and that names of one value are equal.
ghost use Rattle.std.specs.Prelude.{◌≡◌, ◌≢◌, pos, ◌*ℤ◌, [], ◌∷◌, IfOk, OnErr};
ghost use native.Mathlib.Decide.{ℕ_discrete};
ghost use Rattle.ae_math.specs.Fractions.{ℚ, zero_ℚ};
ghost use Rattle.ae_math.specs.Forms.{single, minus as minus_form, scale as scale_form, factor as form_factor};
ghost use Rattle.ae_num.specs.Forms.{meaning, SameMeaning};
ghost use Rattle.ae_num.specs.Limits.{FitsLimits};
ghost use Rattle.ae_store.specs.Shapes.{shapes};
ghost use Rattle.ae_store.specs.Terms.{terms};
ghost use Rattle.ae_just.specs.Steps.{Fits};
ghost use Rattle.ae_just.specs.declared.steps.Side.TheVariants as side;
ghost use Rattle.ae_state_steps.specs.ValueSteps.{IsWritten, IsFormOver, StatesEqual, StatesZero, value_side, name_side};
ghost use Rattle.ae_value_steps.specs.Stating.{AddsStep, IsStated};

use crate::adding::{Valued, add_equal, add_value, add_zero, one_of, three_of, two_of};
use crate::numbers::{factor, negated, product, quotient, sign, size};
use ae_core::proofs::Scaled;
use ae_denominators::laws::{solved_values_are_over_the_factor, sums_are_over_the_product};
use ae_just::justs::Justs;
use ae_num::forms::{Lin, Name};
use ae_state_steps::laws::{names_of_one_value_have_a_step, solved_equations_have_steps};
use ae_store::store::Store;
use std::alloc::{AllocError, Global};

/// Adds the step that the difference of the values of two names is 0, where a step equates the names.
pub fn state_apart(
    alloc: Global,
    store: &Store,
    justs: &mut Justs,
    form: &Lin,
    left: &Valued<'_>,
    right: &Valued<'_>,
    equal: usize,
    real: bool,
) -> Result<usize, AllocError>
    requires fits { Fits store.now.signature (terms (shapes store.now.nodes)) justs.old }
    requires form { IsFormOver store.now.signature (terms (shapes store.now.nodes)) real form.now }
    requires left { IsStated store.now.signature (terms (shapes store.now.nodes)) justs.old real left.now.name left.now.value.now left.now.step }
    requires right { IsStated store.now.signature (terms (shapes store.now.nodes)) justs.old real right.now.name right.now.value.now right.now.step }
    requires equal { StatesEqual justs.old equal left.now.name right.now.name }
    requires difference { SameMeaning (meaning form.now) (minus_form (meaning left.now.value.now) (meaning right.now.value.now)) }
    requires within { FitsLimits (left.now.value.now.den *ℤ right.now.value.now.den) }
    ensures added { IfOk result (λ id. AddsStep justs.old justs.new id (value_side real form.now) (side.Sum [] (pos 0) real) (equal ∷ left.now.step ∷ right.now.step ∷ [])) }
    ensures err { OnErr result (justs.new ≡ justs.old) }
    ensures fits { Fits store.now.signature (terms (shapes store.now.nodes)) justs.new }
{
    solved_equations_have_steps();
    sums_are_over_the_product();
    let dens = product(left.value.den, right.value.den);
    let times = quotient(dens, form.den);
    let first = Scaled {
        factor: dens,
        line: equal,
    };
    let second = Scaled {
        factor: negated(right.value.den),
        line: left.step,
    };
    let third = Scaled {
        factor: left.value.den,
        line: right.step,
    };
    let parts = three_of(alloc, first, second, third)?;
    add_zero(alloc, store, justs, form, real, times, parts)
}

/// Adds the step that states the value of a name for which a form is 0, where a step states that it is.
pub fn state_solved(
    alloc: Global,
    store: &Store,
    justs: &mut Justs,
    name: Name,
    value: &Lin,
    form: &Lin,
    zero: usize,
    real: bool,
) -> Result<usize, AllocError>
    requires fits { Fits store.now.signature (terms (shapes store.now.nodes)) justs.old }
    requires written { IsWritten store.now.signature (terms (shapes store.now.nodes)) real name value.now }
    requires form { IsFormOver store.now.signature (terms (shapes store.now.nodes)) real form.now }
    requires zero { StatesZero justs.old zero real form.now }
    requires free { form_factor ℕ_discrete (meaning value.now) name ≡ zero_ℚ }
    requires solved { (times : ℚ) × (times ≢ zero_ℚ) × SameMeaning (meaning form.now) (scale_form times (minus_form (single name) (meaning value.now))) }
    ensures added { IfOk result (λ id. AddsStep justs.old justs.new id (name_side real name value.now) (value_side real value.now) (zero ∷ [])) }
    ensures err { OnErr result (justs.new ≡ justs.old) }
    ensures fits { Fits store.now.signature (terms (shapes store.now.nodes)) justs.new }
{
    solved_equations_have_steps();
    solved_values_are_over_the_factor();
    let of_name = factor(form.parts.as_slice(), name);
    let times = quotient(size(of_name), value.den);
    let parts = one_of(alloc, sign(of_name), zero)?;
    add_value(alloc, store, justs, name, value, real, times, parts)
}

/// Adds the step that two names of one value are equal.
pub fn state_equal(
    alloc: Global,
    store: &Store,
    justs: &mut Justs,
    left: &Valued<'_>,
    right: &Valued<'_>,
    real: bool,
) -> Result<usize, AllocError>
    requires fits { Fits store.now.signature (terms (shapes store.now.nodes)) justs.old }
    requires left { IsStated store.now.signature (terms (shapes store.now.nodes)) justs.old real left.now.name left.now.value.now left.now.step }
    requires right { IsStated store.now.signature (terms (shapes store.now.nodes)) justs.old real right.now.name right.now.value.now right.now.step }
    requires same { left.now.value.now ≡ right.now.value.now }
    ensures added { IfOk result (λ id. AddsStep justs.old justs.new id (side.Name left.now.name) (side.Name right.now.name) (left.now.step ∷ right.now.step ∷ [])) }
    ensures err { OnErr result (justs.new ≡ justs.old) }
    ensures fits { Fits store.now.signature (terms (shapes store.now.nodes)) justs.new }
{
    names_of_one_value_have_a_step();
    let first = Scaled {
        factor: 1,
        line: left.step,
    };
    let second = Scaled {
        factor: -1,
        line: right.step,
    };
    let parts = two_of(alloc, first, second)?;
    add_equal(store, justs, left.name, right.name, left.value.den, parts)
}
