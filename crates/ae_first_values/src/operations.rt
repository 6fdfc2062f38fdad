//! Values that are computed from those of one or two names.
ghost use Rattle.std.specs.Prelude.{◌≡◌, pos, negsuc, [], ◌∷◌, Some, IfOk, OnErr, IfErr};
ghost use Rattle.ae_math.specs.Fractions.{ratio};
ghost use Rattle.ae_math.specs.Forms.{plus as plus_form, minus as minus_form, scale as scale_form};
ghost use Rattle.ae_core.specs.declared.terms.Op.TheVariants as op;
ghost use Rattle.ae_rules.specs.Linear.{form, IsSame};
ghost use Rattle.ae_num.specs.Forms.{meaning, SameMeaning, IsNormal, IfWide, first_wide, plus_steps, scale_steps, multiple_of};
ghost use Rattle.ae_store.specs.Shapes.{shapes};
ghost use Rattle.ae_store.specs.Terms.{terms, named};
ghost use Rattle.ae_just.specs.Sides.{joined, numeric};
ghost use Rattle.ae_just.specs.Steps.{Fits};
ghost use Rattle.ae_state_steps.specs.ValueSteps.{IsNumberName, IsWritten, value_side, name_side};
ghost use Rattle.ae_value_steps.specs.Stating.{AddsStep, IsStated};

use crate::numbers::{Given, opposite};
use ae_denominators::laws::multiples_are_over_the_product;
use ae_just::justs::Justs;
use ae_num::forms::{Lin, Name, plus, scale};
use ae_num::numbers::NumFail;
use ae_store::store::Store;
use ae_value_steps::{Valued, state_difference, state_multiple, state_sum};
use std::alloc::Global;

/// The value of a sum of two names, with the step that states it from theirs.
///
/// `Wide` comes exactly at the first product or sum of `plus` of the two values that leaves the limits.
pub fn sum(
    alloc: Global,
    store: &Store,
    justs: &mut Justs,
    name: Name,
    left: &Valued<'_>,
    right: &Valued<'_>,
    real: bool,
) -> Result<Given, NumFail>
    requires fits { Fits store.now.signature (terms (shapes store.now.nodes)) justs.old }
    requires name { IsNumberName store.now.signature (terms (shapes store.now.nodes)) real name }
    requires left { IsStated store.now.signature (terms (shapes store.now.nodes)) justs.old real left.now.name left.now.value.now left.now.step }
    requires right { IsStated store.now.signature (terms (shapes store.now.nodes)) justs.old real right.now.name right.now.value.now right.now.step }
    requires is { let ts = terms (shapes store.now.nodes) in named ts name ≡ joined (numeric real op.Add) [] (named ts left.now.name) (named ts right.now.name) }
    ensures sum { IfOk result (λ given. SameMeaning (meaning given.value) (plus_form (meaning left.now.value.now) (meaning right.now.value.now))) }
    ensures written { IfOk result (λ given. IsWritten store.now.signature (terms (shapes store.now.nodes)) real name given.value) }
    ensures added { IfOk result (λ given. AddsStep justs.old justs.new given.step (name_side real name given.value) (value_side real given.value) (left.now.step ∷ right.now.step ∷ [])) }
    ensures wide { IfErr result (λ fail. IfWide fail (λ wide. first_wide (plus_steps left.now.value.now right.now.value.now) ≡ Some wide)) }
    ensures err { OnErr result (justs.new ≡ justs.old) }
    ensures fits { Fits store.now.signature (terms (shapes store.now.nodes)) justs.new }
{
    let value = plus(alloc, left.value, right.value)?;
    let step = state_sum(alloc, store, justs, name, &value, left, right, real)?;
    Ok(Given { value, step })
}

/// The value of a difference of two names, with the step that states it from theirs.
///
/// `Wide` comes exactly at the first product or sum of `plus` of the first value and the opposite of the second that leaves the limits.
pub fn difference(
    alloc: Global,
    store: &Store,
    justs: &mut Justs,
    name: Name,
    left: &Valued<'_>,
    right: &Valued<'_>,
    real: bool,
) -> Result<Given, NumFail>
    requires fits { Fits store.now.signature (terms (shapes store.now.nodes)) justs.old }
    requires name { IsNumberName store.now.signature (terms (shapes store.now.nodes)) real name }
    requires left { IsStated store.now.signature (terms (shapes store.now.nodes)) justs.old real left.now.name left.now.value.now left.now.step }
    requires right { IsStated store.now.signature (terms (shapes store.now.nodes)) justs.old real right.now.name right.now.value.now right.now.step }
    requires is { let ts = terms (shapes store.now.nodes) in named ts name ≡ joined (numeric real op.Sub) [] (named ts left.now.name) (named ts right.now.name) }
    ensures difference { IfOk result (λ given. SameMeaning (meaning given.value) (minus_form (meaning left.now.value.now) (meaning right.now.value.now))) }
    ensures written { IfOk result (λ given. IsWritten store.now.signature (terms (shapes store.now.nodes)) real name given.value) }
    ensures added { IfOk result (λ given. AddsStep justs.old justs.new given.step (name_side real name given.value) (value_side real given.value) (left.now.step ∷ right.now.step ∷ [])) }
    ensures wide { IfErr result (λ fail. IfWide fail (λ wide. first_wide (plus_steps left.now.value.now (multiple_of (negsuc 0) (pos 1) right.now.value.now)) ≡ Some wide)) }
    ensures err { OnErr result (justs.new ≡ justs.old) }
    ensures fits { Fits store.now.signature (terms (shapes store.now.nodes)) justs.new }
{
    multiples_are_over_the_product();
    let turned = opposite(alloc, right.value)?;
    let value = plus(alloc, left.value, &turned)?;
    let step = state_difference(alloc, store, justs, name, &value, left, right, real)?;
    Ok(Given { value, step })
}

/// The value of a name whose linear form is that of another times a number, with the step that states it from the other's: of a negation, of a
/// product with a constant factor, of a quotient by a numeral.
///
/// `Wide` comes exactly at the first product of `scale` of the other's value by the number that leaves the limits.
pub fn multiple(
    alloc: Global,
    store: &Store,
    justs: &mut Justs,
    name: Name,
    of: &Valued<'_>,
    by: &Lin,
    real: bool,
) -> Result<Given, NumFail>
    requires fits { Fits store.now.signature (terms (shapes store.now.nodes)) justs.old }
    requires name { IsNumberName store.now.signature (terms (shapes store.now.nodes)) real name }
    requires of { IsStated store.now.signature (terms (shapes store.now.nodes)) justs.old real of.now.name of.now.value.now of.now.step }
    requires by { IsNormal by.now }
    requires is { let ts = terms (shapes store.now.nodes) in IsSame (form (named ts name)) (scale_form (ratio by.now.constant by.now.den) (form (named ts of.now.name))) }
    ensures multiple { IfOk result (λ given. SameMeaning (meaning given.value) (scale_form (ratio by.now.constant by.now.den) (meaning of.now.value.now))) }
    ensures written { IfOk result (λ given. IsWritten store.now.signature (terms (shapes store.now.nodes)) real name given.value) }
    ensures added { IfOk result (λ given. AddsStep justs.old justs.new given.step (name_side real name given.value) (value_side real given.value) (of.now.step ∷ [])) }
    ensures wide { IfErr result (λ fail. IfWide fail (λ wide. first_wide (scale_steps by.now.constant by.now.den of.now.value.now) ≡ Some wide)) }
    ensures err { OnErr result (justs.new ≡ justs.old) }
    ensures fits { Fits store.now.signature (terms (shapes store.now.nodes)) justs.new }
{
    let top = by.constant;
    let bottom = by.den;
    let value = scale(alloc, top, bottom, of.value)?;
    let step = state_multiple(alloc, store, justs, name, &value, of, top, bottom, real)?;
    Ok(Given { value, step })
}
