//! The numbers of sums, differences and negations of names.
ghost use Rattle.std.specs.Prelude.{◌≡◌, pos, negsuc, [], Some, IfOk, IfErr};
ghost use Rattle.ae_math.specs.Fractions.{neg_ℚ, one_ℚ};
ghost use Rattle.ae_math.specs.Forms.{plus as plus_form, minus as minus_form, scale as scale_form};
ghost use Rattle.ae_core.specs.declared.terms.Op.TheVariants as op;
ghost use Rattle.ae_num.specs.Forms.{meaning, IsNormal, IfWide, first_wide, plus_steps, multiple_of};
ghost use Rattle.ae_journal.specs.declared.answers.NumStep.TheVariants as num;
ghost use Rattle.ae_store.specs.Growing.{IsFront};
ghost use Rattle.ae_store.specs.Shapes.{shapes};
ghost use Rattle.ae_store.specs.Terms.{terms};
ghost use Rattle.ae_just.specs.Steps.{Fits};
ghost use Rattle.ae_state_steps.specs.ValueSteps.{IsNumberName};
ghost use Rattle.ae_value_table.specs.Table.{number_at};
ghost use Rattle.ae_value_fitting.specs.Fitting.{AreSaid};
ghost use Rattle.ae_value_fitting.specs.Refusals.{IfNumber};
ghost use Rattle.ae_take_in.specs.Widths.{IsStepWide};
ghost use Rattle.ae_take_in.specs.Inner.Operations.{IsOn, IsNegationOf, IsGiven};

use crate::given::given;
use crate::refusals::refused;
use ae_first_values::{Given, difference, multiple, opposite, sum};
use ae_journal::answers::NumStep;
use ae_just::justs::Justs;
use ae_num::forms::{Lin, Name};
use ae_num::numbers::NumFail;
use ae_store::store::Store;
use ae_value_fitting::Refused;
use ae_value_steps::Valued;
use ae_value_table::Values;
use sqlite_items::Items;
use std::alloc::{AllocError, Global};

/// The number of the sum of two names.
pub(crate) fn sum_of(
    alloc: Global,
    values: &Values,
    store: &Store,
    justs: &mut Justs,
    name: Name,
    left: Name,
    right: Name,
    real: bool,
) -> Result<Given, Refused>
    requires fits { Fits store.now.signature (terms (shapes store.now.nodes)) justs.old }
    requires said { AreSaid store.now.signature (terms (shapes store.now.nodes)) justs.old values.now }
    requires name { IsNumberName store.now.signature (terms (shapes store.now.nodes)) real name }
    requires on { IsOn store.now.signature (terms (shapes store.now.nodes)) real name op.Add left right }
    ensures given { IfOk result (λ given. IsGiven store.now.signature (terms (shapes store.now.nodes)) justs.old justs.new values.now real name (plus_form (meaning (number_at values.now left)) (meaning (number_at values.now right))) given) }
    ensures wide { IfErr result (λ refused. IfNumber refused (λ width. IsStepWide num.Plus (number_at values.now left) (number_at values.now right) width)) }
    ensures front { IsFront justs.old justs.new }
    ensures fits { Fits store.now.signature (terms (shapes store.now.nodes)) justs.new }
{
    let first = given(alloc, values, store, justs, left, real)?;
    let second = given(alloc, values, store, justs, right, real)?;
    let one = Valued {
        name: left,
        value: &first.value,
        step: first.step,
    };
    let other = Valued {
        name: right,
        value: &second.value,
        step: second.step,
    };
    match sum(alloc, store, justs, name, &one, &other, real) {
        Ok(given) => Ok(given),
        Err(fail) => Err(refused(NumStep::Plus, first.value, second.value, fail)),
    }
}

/// Why a difference of two numbers is refused, by why its arithmetic is.
fn difference_refused(alloc: Global, left: Lin, right: &Lin, fail: NumFail) -> Refused
    requires left { IsNormal left }
    requires right { IsNormal right.now }
    requires wide { IfWide fail (λ wide. first_wide (plus_steps left (multiple_of (negsuc 0) (pos 1) right.now)) ≡ Some wide) }
    ensures { IfNumber result (λ width. IsStepWide num.Plus left (multiple_of (negsuc 0) (pos 1) right.now) width) }
{
    match opposite(alloc, right) {
        Ok(turned) => refused(NumStep::Plus, left, turned, fail),
        Err(memory) => Refused::Memory(memory),
    }
}

/// The number of the difference of two names.
pub(crate) fn difference_of(
    alloc: Global,
    values: &Values,
    store: &Store,
    justs: &mut Justs,
    name: Name,
    left: Name,
    right: Name,
    real: bool,
) -> Result<Given, Refused>
    requires fits { Fits store.now.signature (terms (shapes store.now.nodes)) justs.old }
    requires said { AreSaid store.now.signature (terms (shapes store.now.nodes)) justs.old values.now }
    requires name { IsNumberName store.now.signature (terms (shapes store.now.nodes)) real name }
    requires on { IsOn store.now.signature (terms (shapes store.now.nodes)) real name op.Sub left right }
    ensures given { IfOk result (λ given. IsGiven store.now.signature (terms (shapes store.now.nodes)) justs.old justs.new values.now real name (minus_form (meaning (number_at values.now left)) (meaning (number_at values.now right))) given) }
    ensures wide { IfErr result (λ refused. IfNumber refused (λ width. IsStepWide num.Plus (number_at values.now left) (multiple_of (negsuc 0) (pos 1) (number_at values.now right)) width)) }
    ensures front { IsFront justs.old justs.new }
    ensures fits { Fits store.now.signature (terms (shapes store.now.nodes)) justs.new }
{
    let first = given(alloc, values, store, justs, left, real)?;
    let second = given(alloc, values, store, justs, right, real)?;
    let one = Valued {
        name: left,
        value: &first.value,
        step: first.step,
    };
    let other = Valued {
        name: right,
        value: &second.value,
        step: second.step,
    };
    match difference(alloc, store, justs, name, &one, &other, real) {
        Ok(given) => Ok(given),
        Err(fail) => Err(difference_refused(alloc, first.value, &second.value, fail)),
    }
}

/// The number -1.
fn minus_one(alloc: Global) -> Lin
    ensures form { result ≡ record { den = pos 1; parts = []; constant = negsuc 0 } }
{
    Lin {
        den: 1,
        parts: Items::new(alloc),
        constant: -1,
    }
}

/// The number of the negation of a name. No product of it leaves the limits.
pub(crate) fn negation_of(
    alloc: Global,
    values: &Values,
    store: &Store,
    justs: &mut Justs,
    name: Name,
    of: Name,
    real: bool,
) -> Result<Given, AllocError>
    requires fits { Fits store.now.signature (terms (shapes store.now.nodes)) justs.old }
    requires said { AreSaid store.now.signature (terms (shapes store.now.nodes)) justs.old values.now }
    requires name { IsNumberName store.now.signature (terms (shapes store.now.nodes)) real name }
    requires on { IsNegationOf store.now.signature (terms (shapes store.now.nodes)) real name of }
    ensures given { IfOk result (λ given. IsGiven store.now.signature (terms (shapes store.now.nodes)) justs.old justs.new values.now real name (scale_form (neg_ℚ one_ℚ) (meaning (number_at values.now of))) given) }
    ensures front { IsFront justs.old justs.new }
    ensures fits { Fits store.now.signature (terms (shapes store.now.nodes)) justs.new }
{
    let whole = given(alloc, values, store, justs, of, real)?;
    let by = minus_one(alloc);
    let valued = Valued {
        name: of,
        value: &whole.value,
        step: whole.step,
    };
    match multiple(alloc, store, justs, name, &valued, &by, real) {
        Ok(given) => Ok(given),
        Err(fail) => match fail {
            NumFail::Memory(memory) => Err(memory),
            NumFail::Wide(_wide) => unreachable!(),
        },
    }
}
