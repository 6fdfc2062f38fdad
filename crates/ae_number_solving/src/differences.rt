//! The difference of two numbers that a step equates, and the step that it is 0.
ghost use Rattle.std.specs.Prelude.{◌≡◌, ◌*ℤ◌, [], ◌∷◌, Some, IfOk, OnOk, IfErr};
ghost use Rattle.ae_math.specs.Forms.{minus};
ghost use Rattle.ae_num.specs.Forms.{meaning, SameMeaning, IsNormal, IfWide, first_wide, plus_steps};
ghost use Rattle.ae_num.specs.Limits.{FitsLimits};
ghost use Rattle.ae_store.specs.Growing.{IsFront};
ghost use Rattle.ae_just.specs.Steps.{Fits};
ghost use Rattle.ae_state_steps.specs.ValueSteps.{IsWritten, IsFormOver, StatesEqual, StatesZero};
ghost use Rattle.ae_theory.specs.Names.{terms_in};
ghost use Rattle.ae_value_table.specs.Table.{number_at};
ghost use Rattle.ae_value_fitting.specs.Fitting.{AreSaid};
ghost use Rattle.ae_value_fitting.specs.Sources.{RestsOnValues};
ghost use Rattle.ae_value_fitting.specs.Refusals.{IfNumber};
ghost use Rattle.ae_number_solving.specs.Inner.Widths.{IsSumWide, IsDifferenceWide};

use ae_denominators::laws::multiples_are_over_the_product;
use ae_equal_steps::number_step;
use ae_first_values::opposite;
use ae_journal::answers::{NumStep, WideAt};
use ae_just::justs::Justs;
use ae_num::copies::copied;
use ae_num::forms::{Lin, Name, plus};
use ae_num::numbers::NumFail;
use ae_store::store::Store;
use ae_value_fitting::Refused;
use ae_value_steps::{Valued, state_apart};
use ae_value_table::Values;
use std::alloc::Global;

/// The difference of two numbers, and the number of a step that states that it is 0.
#[derive(Drop)]
pub(crate) struct Difference {
    pub(crate) form: Lin,
    pub(crate) zero: usize,
}

/// Why a difference is refused, by why the sum of the first number and the second times -1 is.
fn difference_refused(alloc: Global, left: &Lin, negated: Lin, fail: NumFail) -> Refused
    requires wide { IfWide fail (λ wide. first_wide (plus_steps left.now negated) ≡ Some wide) }
    ensures { IfNumber result (λ width. IsSumWide left.now negated width) }
{
    match fail {
        NumFail::Memory(refused) => Refused::Memory(refused),
        NumFail::Wide(wide) => match copied(alloc, left) {
            Ok(copy) => Refused::Number(WideAt {
                step: NumStep::Plus,
                left: copy,
                key: None,
                right: negated,
                wide,
            }),
            Err(refused) => Refused::Memory(refused),
        },
    }
}

/// The difference of two numbers, in the normal form.
fn difference_of(alloc: Global, left: &Lin, right: &Lin) -> Result<Lin, Refused>
    requires left { IsNormal left.now }
    requires right { IsNormal right.now }
    ensures means { IfOk result (λ form. SameMeaning (meaning form) (minus (meaning left.now) (meaning right.now))) }
    ensures normal { IfOk result (λ form. IsNormal form) }
    ensures within { OnOk result (FitsLimits (left.now.den *ℤ right.now.den)) }
    ensures wide { IfErr result (λ refused. IfNumber refused (λ width. IsDifferenceWide left.now right.now width)) }
{
    multiples_are_over_the_product();
    let negated = opposite(alloc, right)?;
    match plus(alloc, left, &negated) {
        Ok(form) => Ok(form),
        Err(fail) => Err(difference_refused(alloc, left, negated, fail)),
    }
}

/// The difference of the numbers of two names that a step equates, with the steps that state it: that it is 0 rests on that step and on those that say
/// values. The width of a refusal is that of the sum of the first number and the second times -1.
pub(crate) fn zero_difference(
    alloc: Global,
    values: &Values,
    store: &Store,
    justs: &mut Justs,
    left: Name,
    right: Name,
    equal: usize,
    real: bool,
) -> Result<Difference, Refused>
    requires fits { Fits store.now.signature (terms_in store.now) justs.old }
    requires said { AreSaid store.now.signature (terms_in store.now) justs.old values.now }
    requires left { IsWritten store.now.signature (terms_in store.now) real left (number_at values.now left) }
    requires right { IsWritten store.now.signature (terms_in store.now) real right (number_at values.now right) }
    requires equal { StatesEqual justs.old equal left right }
    ensures means { IfOk result (λ difference. SameMeaning (meaning difference.form) (minus (meaning (number_at values.now left)) (meaning (number_at values.now right)))) }
    ensures over { IfOk result (λ difference. IsFormOver store.now.signature (terms_in store.now) real difference.form) }
    ensures zero { IfOk result (λ difference. StatesZero justs.new difference.zero real difference.form) }
    ensures rests { IfOk result (λ difference. RestsOnValues justs.old justs.new values.now (equal ∷ []) difference.zero) }
    ensures wide { IfErr result (λ refused. IfNumber refused (λ width. IsDifferenceWide (number_at values.now left) (number_at values.now right) width)) }
    ensures front { IsFront justs.old justs.new }
    ensures fits { Fits store.now.signature (terms_in store.now) justs.new }
{
    let first = values.number(left)?;
    let second = values.number(right)?;
    let form = difference_of(alloc, &first, &second)?;
    let of_left = number_step(alloc, values, store, justs, left, &first, real)?;
    let of_right = number_step(alloc, values, store, justs, right, &second, real)?;
    let one = Valued {
        name: left,
        value: &first,
        step: of_left,
    };
    let other = Valued {
        name: right,
        value: &second,
        step: of_right,
    };
    let zero = state_apart(alloc, store, justs, &form, &one, &other, equal, real)?;
    Ok(Difference { form, zero })
}
