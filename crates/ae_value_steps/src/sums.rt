//! The first steps of values: of numerals, of names that are their own values, and of linear operations.
ghost use Rattle.std.specs.Prelude.{◌≡◌, ℤ, pos, ◌*ℤ◌, ◌<ℤ◌, [], ◌∷◌, IfOk, OnErr};
ghost use Rattle.ae_math.specs.Fractions.{ratio};
ghost use Rattle.ae_math.specs.Forms.{number as number_form, single, plus as plus_form, minus as minus_form, scale as scale_form};
ghost use Rattle.ae_core.specs.declared.terms.Term.{Num};
ghost use Rattle.ae_core.specs.declared.terms.Op.TheVariants as op;
ghost use Rattle.ae_rules.specs.Linear.{form, IsSame};
ghost use Rattle.ae_num.specs.Forms.{meaning, SameMeaning};
ghost use Rattle.ae_num.specs.Limits.{FitsLimits};
ghost use Rattle.ae_store.specs.Shapes.{shapes};
ghost use Rattle.ae_store.specs.Terms.{terms, named};
ghost use Rattle.ae_just.specs.Sides.{joined, numeric};
ghost use Rattle.ae_just.specs.Steps.{Fits};
ghost use Rattle.ae_state_steps.specs.ValueSteps.{IsWritten, value_side, name_side};
ghost use Rattle.ae_value_steps.specs.Stating.{AddsStep, IsStated};

use crate::adding::{Valued, add_value, one_of, two_of};
use crate::numbers::{negated, product, quotient};
use ae_core::lists::List;
use ae_core::proofs::Scaled;
use ae_denominators::laws::{multiples_are_over_the_product, sums_are_over_the_product};
use ae_just::justs::Justs;
use ae_num::forms::{Lin, Name};
use ae_state_steps::laws::{first_values_have_a_step, multiples_have_a_step, sums_have_a_step};
use ae_store::store::Store;
use std::alloc::{AllocError, Global};

/// Adds the step that states the value of a numeral. It rests on nothing.
pub fn state_numeral(
    alloc: Global,
    store: &Store,
    justs: &mut Justs,
    name: Name,
    value: &Lin,
    real: bool,
) -> Result<usize, AllocError>
    requires fits { Fits store.now.signature (terms (shapes store.now.nodes)) justs.old }
    requires written { IsWritten store.now.signature (terms (shapes store.now.nodes)) real name value.now }
    requires numeral { (a : ℤ) × (b : ℤ) × (named (terms (shapes store.now.nodes)) name ≡ Num a b real) × SameMeaning (meaning value.now) (number_form (ratio a b)) }
    ensures added { IfOk result (λ id. AddsStep justs.old justs.new id (name_side real name value.now) (value_side real value.now) []) }
    ensures err { OnErr result (justs.new ≡ justs.old) }
    ensures fits { Fits store.now.signature (terms (shapes store.now.nodes)) justs.new }
{
    first_values_have_a_step();
    add_value(alloc, store, justs, name, value, real, 1, List::new(alloc))
}

/// Adds the step that states that a name is its own value. It rests on nothing.
pub fn state_own(
    alloc: Global,
    store: &Store,
    justs: &mut Justs,
    name: Name,
    value: &Lin,
    real: bool,
) -> Result<usize, AllocError>
    requires fits { Fits store.now.signature (terms (shapes store.now.nodes)) justs.old }
    requires written { IsWritten store.now.signature (terms (shapes store.now.nodes)) real name value.now }
    requires own { SameMeaning (meaning value.now) (single name) }
    ensures added { IfOk result (λ id. AddsStep justs.old justs.new id (name_side real name value.now) (value_side real value.now) []) }
    ensures err { OnErr result (justs.new ≡ justs.old) }
    ensures fits { Fits store.now.signature (terms (shapes store.now.nodes)) justs.new }
{
    first_values_have_a_step();
    add_value(alloc, store, justs, name, value, real, 1, List::new(alloc))
}

/// Adds the step that states the value of a sum of two names, from the steps of theirs.
pub fn state_sum(
    alloc: Global,
    store: &Store,
    justs: &mut Justs,
    name: Name,
    value: &Lin,
    left: &Valued<'_>,
    right: &Valued<'_>,
    real: bool,
) -> Result<usize, AllocError>
    requires fits { Fits store.now.signature (terms (shapes store.now.nodes)) justs.old }
    requires written { IsWritten store.now.signature (terms (shapes store.now.nodes)) real name value.now }
    requires left { IsStated store.now.signature (terms (shapes store.now.nodes)) justs.old real left.now.name left.now.value.now left.now.step }
    requires right { IsStated store.now.signature (terms (shapes store.now.nodes)) justs.old real right.now.name right.now.value.now right.now.step }
    requires is { let ts = terms (shapes store.now.nodes) in named ts name ≡ joined (numeric real op.Add) [] (named ts left.now.name) (named ts right.now.name) }
    requires sum { SameMeaning (meaning value.now) (plus_form (meaning left.now.value.now) (meaning right.now.value.now)) }
    requires within { FitsLimits (left.now.value.now.den *ℤ right.now.value.now.den) }
    ensures added { IfOk result (λ id. AddsStep justs.old justs.new id (name_side real name value.now) (value_side real value.now) (left.now.step ∷ right.now.step ∷ [])) }
    ensures err { OnErr result (justs.new ≡ justs.old) }
    ensures fits { Fits store.now.signature (terms (shapes store.now.nodes)) justs.new }
{
    sums_have_a_step();
    sums_are_over_the_product();
    let times = quotient(product(left.value.den, right.value.den), value.den);
    let first = Scaled {
        factor: right.value.den,
        line: left.step,
    };
    let second = Scaled {
        factor: left.value.den,
        line: right.step,
    };
    let parts = two_of(alloc, first, second)?;
    add_value(alloc, store, justs, name, value, real, times, parts)
}

/// Adds the step that states the value of a difference of two names, from the steps of theirs.
pub fn state_difference(
    alloc: Global,
    store: &Store,
    justs: &mut Justs,
    name: Name,
    value: &Lin,
    left: &Valued<'_>,
    right: &Valued<'_>,
    real: bool,
) -> Result<usize, AllocError>
    requires fits { Fits store.now.signature (terms (shapes store.now.nodes)) justs.old }
    requires written { IsWritten store.now.signature (terms (shapes store.now.nodes)) real name value.now }
    requires left { IsStated store.now.signature (terms (shapes store.now.nodes)) justs.old real left.now.name left.now.value.now left.now.step }
    requires right { IsStated store.now.signature (terms (shapes store.now.nodes)) justs.old real right.now.name right.now.value.now right.now.step }
    requires is { let ts = terms (shapes store.now.nodes) in named ts name ≡ joined (numeric real op.Sub) [] (named ts left.now.name) (named ts right.now.name) }
    requires difference { SameMeaning (meaning value.now) (minus_form (meaning left.now.value.now) (meaning right.now.value.now)) }
    requires within { FitsLimits (left.now.value.now.den *ℤ right.now.value.now.den) }
    ensures added { IfOk result (λ id. AddsStep justs.old justs.new id (name_side real name value.now) (value_side real value.now) (left.now.step ∷ right.now.step ∷ [])) }
    ensures err { OnErr result (justs.new ≡ justs.old) }
    ensures fits { Fits store.now.signature (terms (shapes store.now.nodes)) justs.new }
{
    sums_have_a_step();
    sums_are_over_the_product();
    let times = quotient(product(left.value.den, right.value.den), value.den);
    let first = Scaled {
        factor: right.value.den,
        line: left.step,
    };
    let second = Scaled {
        factor: negated(left.value.den),
        line: right.step,
    };
    let parts = two_of(alloc, first, second)?;
    add_value(alloc, store, justs, name, value, real, times, parts)
}

/// Adds the step that states the value of a name whose linear form is `top / bottom` times that of another: of a negation, of a product with a
/// constant factor, of a quotient by a numeral.
pub fn state_multiple(
    alloc: Global,
    store: &Store,
    justs: &mut Justs,
    name: Name,
    value: &Lin,
    of: &Valued<'_>,
    top: i128,
    bottom: i128,
    real: bool,
) -> Result<usize, AllocError>
    requires fits { Fits store.now.signature (terms (shapes store.now.nodes)) justs.old }
    requires written { IsWritten store.now.signature (terms (shapes store.now.nodes)) real name value.now }
    requires of { IsStated store.now.signature (terms (shapes store.now.nodes)) justs.old real of.now.name of.now.value.now of.now.step }
    requires top { FitsLimits top }
    requires bottom { pos 0 <ℤ bottom }
    requires is { let ts = terms (shapes store.now.nodes) in IsSame (form (named ts name)) (scale_form (ratio top bottom) (form (named ts of.now.name))) }
    requires multiple { SameMeaning (meaning value.now) (scale_form (ratio top bottom) (meaning of.now.value.now)) }
    requires within { FitsLimits (of.now.value.now.den *ℤ bottom) }
    ensures added { IfOk result (λ id. AddsStep justs.old justs.new id (name_side real name value.now) (value_side real value.now) (of.now.step ∷ [])) }
    ensures err { OnErr result (justs.new ≡ justs.old) }
    ensures fits { Fits store.now.signature (terms (shapes store.now.nodes)) justs.new }
{
    multiples_have_a_step();
    multiples_are_over_the_product();
    let times = quotient(product(of.value.den, bottom), value.den);
    let parts = one_of(alloc, top, of.step)?;
    add_value(alloc, store, justs, name, value, real, times, parts)
}
