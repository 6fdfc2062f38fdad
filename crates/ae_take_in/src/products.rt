//! The numbers of products with a constant, and of quotients by a numeral.
ghost use Rattle.std.specs.Prelude.{◌≡◌, ◌≢◌, ◌<◌, ℕ, ℤ, pos, ◌<ℤ◌, Bool, true, [], length, slice_get, Some, None, IfOk, IfErr, IfSome, IfNone};
ghost use Rattle.ae_math.specs.Fractions.{ratio, inverse_ℚ};
ghost use Rattle.ae_math.specs.Forms.{number as number_form, scale as scale_form};
ghost use Rattle.ae_core.specs.declared.terms.Op.TheVariants as op;
ghost use Rattle.ae_rules.specs.Linear.{form, is_number, IsSame};
ghost use Rattle.ae_num.specs.Forms.{meaning, SameMeaning};
ghost use Rattle.ae_num.specs.Limits.{FitsLimits};
ghost use Rattle.ae_num.specs.declared.forms.Lin.{Lin as Number};
ghost use Rattle.ae_constants.specs.declared.rules.Computed.TheVariants as computed;
ghost use Rattle.ae_journal.specs.declared.answers.NumStep.TheVariants as num;
ghost use Rattle.ae_store.specs.Growing.{IsFront};
ghost use Rattle.ae_store.specs.Shapes.{shapes};
ghost use Rattle.ae_store.specs.Terms.{terms, named};
ghost use Rattle.ae_just.specs.Steps.{Fits};
ghost use Rattle.ae_state_steps.specs.ValueSteps.{IsNumberName};
ghost use Rattle.ae_value_table.specs.Table.{number_at};
ghost use Rattle.ae_value_fitting.specs.Fitting.{AreSaid};
ghost use Rattle.ae_value_fitting.specs.Refusals.{IfNumber};
ghost use Rattle.ae_take_in.specs.Widths.{IsStepWide, IsOperandWidth};
ghost use Rattle.ae_take_in.specs.Inner.Operations.{IsOn, IsGiven, IsGivenBy, form_by};

use crate::given::given;
use crate::refusals::refused;
use ae_first_values::{Given, inverse, multiple};
use ae_journal::answers::NumStep;
use ae_just::justs::Justs;
use ae_num::forms::Name;
use ae_store::nodes::NodeHead;
use ae_store::store::Store;
use ae_value_fitting::Refused;
use ae_value_steps::Valued;
use ae_value_table::Values;
use std::alloc::Global;

/// The number of a name that is another one times a constant, which a name has as its number.
fn scaled(
    alloc: Global,
    values: &Values,
    store: &Store,
    justs: &mut Justs,
    name: Name,
    of: Name,
    by: Name,
    real: bool,
) -> Result<Given, Refused>
    requires fits { Fits store.now.signature (terms (shapes store.now.nodes)) justs.old }
    requires said { AreSaid store.now.signature (terms (shapes store.now.nodes)) justs.old values.now }
    requires name { IsNumberName store.now.signature (terms (shapes store.now.nodes)) real name }
    requires of { IsNumberName store.now.signature (terms (shapes store.now.nodes)) real of }
    requires is { let ts = terms (shapes store.now.nodes) in IsSame (form (named ts name)) (scale_form (form (named ts by)).constant (form (named ts of))) }
    requires constant { SameMeaning (meaning (number_at values.now by)) (number_form (form (named (terms (shapes store.now.nodes)) by)).constant) }
    ensures given { IfOk result (λ given. IsGiven store.now.signature (terms (shapes store.now.nodes)) justs.old justs.new values.now real name (scale_form (form (named (terms (shapes store.now.nodes)) by)).constant (meaning (number_at values.now of))) given) }
    ensures wide { IfErr result (λ refused. IfNumber refused (λ width. IsStepWide num.Scale (number_at values.now of) (number_at values.now by) width)) }
    ensures front { IsFront justs.old justs.new }
    ensures fits { Fits store.now.signature (terms (shapes store.now.nodes)) justs.new }
{
    let whole = given(alloc, values, store, justs, of, real)?;
    let factor = values.number(by)?;
    let valued = Valued {
        name: of,
        value: &whole.value,
        step: whole.step,
    };
    match multiple(alloc, store, justs, name, &valued, &factor, real) {
        Ok(given) => Ok(given),
        Err(fail) => Err(refused(NumStep::Scale, whole.value, factor, fail)),
    }
}

/// Whether the linear form of a name's term is a number.
fn is_constant(constants: &[bool], name: Name) -> bool
    requires { name < length constants.now }
    ensures { slice_get constants.now name ≡ Some result }
{
    constants[name]
}

/// The number of the product of two names; `None` where the linear form of neither is a number.
pub(crate) fn product_of(
    alloc: Global,
    values: &Values,
    store: &Store,
    constants: &[bool],
    justs: &mut Justs,
    name: Name,
    left: Name,
    right: Name,
    real: bool,
) -> Result<Option<Given>, Refused>
    requires fits { Fits store.now.signature (terms (shapes store.now.nodes)) justs.old }
    requires said { AreSaid store.now.signature (terms (shapes store.now.nodes)) justs.old values.now }
    requires name { IsNumberName store.now.signature (terms (shapes store.now.nodes)) real name }
    requires on { IsOn store.now.signature (terms (shapes store.now.nodes)) real name op.Mul left right }
    requires left { left < length constants.now }
    requires right { right < length constants.now }
    requires constants { (n : ℕ) (b : Bool) → slice_get constants.now n ≡ Some b → b ≡ is_number (form (named (terms (shapes store.now.nodes)) n)) }
    requires left_number { is_number (form (named (terms (shapes store.now.nodes)) left)) ≡ true → SameMeaning (meaning (number_at values.now left)) (number_form (form (named (terms (shapes store.now.nodes)) left)).constant) }
    requires right_number { is_number (form (named (terms (shapes store.now.nodes)) right)) ≡ true → SameMeaning (meaning (number_at values.now right)) (number_form (form (named (terms (shapes store.now.nodes)) right)).constant) }
    ensures some { IfOk result (λ o. IfSome o (λ given. IsGivenBy store.now.signature (terms (shapes store.now.nodes)) justs.old justs.new values.now real name (computed.Product left right) given)) }
    ensures none { IfOk result (λ o. IfNone o ((number : ℕ → Number) → form_by (terms (shapes store.now.nodes)) number (computed.Product left right) ≡ None)) }
    ensures wide { IfErr result (λ refused. IfNumber refused (λ width. IsOperandWidth (terms (shapes store.now.nodes)) (number_at values.now) name width)) }
    ensures front { IsFront justs.old justs.new }
    ensures fits { Fits store.now.signature (terms (shapes store.now.nodes)) justs.new }
{
    let first = is_constant(constants, left);
    if first {
        let by_left = scaled(alloc, values, store, justs, name, right, left, real)?;
        return Ok(Some(by_left));
    }
    let second = is_constant(constants, right);
    if second {
        let by_right = scaled(alloc, values, store, justs, name, left, right, real)?;
        return Ok(Some(by_right));
    }
    Ok(None)
}

/// The number of a name that is another one divided by a number other than 0.
fn divided(
    alloc: Global,
    values: &Values,
    store: &Store,
    justs: &mut Justs,
    name: Name,
    of: Name,
    top: i128,
    bottom: i128,
    real: bool,
) -> Result<Given, Refused>
    requires fits { Fits store.now.signature (terms (shapes store.now.nodes)) justs.old }
    requires said { AreSaid store.now.signature (terms (shapes store.now.nodes)) justs.old values.now }
    requires name { IsNumberName store.now.signature (terms (shapes store.now.nodes)) real name }
    requires of { IsNumberName store.now.signature (terms (shapes store.now.nodes)) real of }
    requires top { top ≢ pos 0 }
    requires bottom { pos 0 <ℤ bottom }
    requires top_within { FitsLimits top }
    requires bottom_within { FitsLimits bottom }
    requires is { let ts = terms (shapes store.now.nodes) in IsSame (form (named ts name)) (scale_form (inverse_ℚ (ratio top bottom)) (form (named ts of))) }
    ensures given { IfOk result (λ given. IsGiven store.now.signature (terms (shapes store.now.nodes)) justs.old justs.new values.now real name (scale_form (inverse_ℚ (ratio top bottom)) (meaning (number_at values.now of))) given) }
    ensures wide { IfErr result (λ refused. IfNumber refused (λ width. IsStepWide num.Scale (number_at values.now of) width.right width × SameMeaning (meaning width.right) (number_form (inverse_ℚ (ratio top bottom))))) }
    ensures front { IsFront justs.old justs.new }
    ensures fits { Fits store.now.signature (terms (shapes store.now.nodes)) justs.new }
{
    let whole = given(alloc, values, store, justs, of, real)?;
    let factor = inverse(alloc, top, bottom);
    let valued = Valued {
        name: of,
        value: &whole.value,
        step: whole.step,
    };
    match multiple(alloc, store, justs, name, &valued, &factor, real) {
        Ok(given) => Ok(given),
        Err(fail) => Err(refused(NumStep::Scale, whole.value, factor, fail)),
    }
}

/// The number of the quotient of two names; `None` where the second is no numeral other than 0.
pub(crate) fn quotient_of(
    alloc: Global,
    values: &Values,
    store: &Store,
    justs: &mut Justs,
    name: Name,
    of: Name,
    by: Name,
    real: bool,
) -> Result<Option<Given>, Refused>
    requires fits { Fits store.now.signature (terms (shapes store.now.nodes)) justs.old }
    requires said { AreSaid store.now.signature (terms (shapes store.now.nodes)) justs.old values.now }
    requires name { IsNumberName store.now.signature (terms (shapes store.now.nodes)) real name }
    requires on { IsOn store.now.signature (terms (shapes store.now.nodes)) real name op.Div of by }
    requires real { real ≡ true }
    requires by { by < length store.now.nodes }
    ensures some { IfOk result (λ o. IfSome o (λ given. IsGivenBy store.now.signature (terms (shapes store.now.nodes)) justs.old justs.new values.now real name (computed.Quotient of by) given)) }
    ensures none { IfOk result (λ o. IfNone o ((number : ℕ → Number) → form_by (terms (shapes store.now.nodes)) number (computed.Quotient of by) ≡ None)) }
    ensures wide { IfErr result (λ refused. IfNumber refused (λ width. IsOperandWidth (terms (shapes store.now.nodes)) (number_at values.now) name width)) }
    ensures front { IsFront justs.old justs.new }
    ensures fits { Fits store.now.signature (terms (shapes store.now.nodes)) justs.new }
{
    let _len = store.len();
    let divisor = store.node(by);
    match divisor.head {
        NodeHead::Num { top, bottom } => {
            if top == 0 {
                return Ok(None);
            }
            let quotient = divided(alloc, values, store, justs, name, of, top, bottom, real)?;
            Ok(Some(quotient))
        }
        NodeHead::Of(_) => Ok(None),
        NodeHead::Fresh(_) => Ok(None),
    }
}
