//! The difference of the values of an inequality's sides.
ghost use Rattle.std.specs.Prelude.{◌≡◌, ◌*ℤ◌, Some, Err, IfOk, OnOk};
ghost use Rattle.ae_math.specs.Forms.{minus};
ghost use Rattle.ae_num.specs.Forms.{meaning, SameMeaning, IsNormal, IfWide, first_wide, plus_steps};
ghost use Rattle.ae_num.specs.Limits.{FitsLimits};
ghost use Rattle.ae_journal.specs.declared.answers.WideAt.{WideAt as WideAtValue};
ghost use Rattle.ae_theory.specs.declared.theory.Fail.TheVariants.{Steps, Number};
ghost use Rattle.ae_row_differences.specs.Widths.{IsDifferenceWide};
ghost use Rattle.ae_row_differences.specs.Inner.Sums.{IsSumWide};

use ae_denominators::laws::multiples_are_over_the_product;
use ae_first_values::opposite;
use ae_journal::answers::{NumStep, WideAt};
use ae_num::copies::copied;
use ae_num::forms::{Lin, plus};
use ae_num::numbers::NumFail;
use ae_theory::theory::Fail;
use std::alloc::Global;

/// Why a difference is refused, by why the sum of the first number and the second times -1 is.
fn refused(alloc: Global, upper: &Lin, negated: Lin, fail: NumFail) -> Fail
    requires wide { IfWide fail (λ wide. first_wide (plus_steps upper.now negated) ≡ Some wide) }
    ensures number { (wide : WideAtValue) → result ≡ Number wide → IsSumWide upper.now negated wide }
    ensures steps { ¬ (result ≡ Steps) }
{
    match fail {
        NumFail::Memory(failed) => Fail::Memory(failed),
        NumFail::Wide(wide) => match copied(alloc, upper) {
            Ok(copy) => Fail::Number(WideAt {
                step: NumStep::Plus,
                left: copy,
                key: None,
                right: negated,
                wide,
            }),
            Err(failed) => Fail::Memory(failed),
        },
    }
}

/// The upper value less the lower one, in the normal form.
///
/// `Number` comes exactly where a product or a sum of the upper value and the lower one times -1 leaves the limits, with that step.
pub fn difference(alloc: Global, upper: &Lin, lower: &Lin) -> Result<Lin, Fail>
    requires upper { IsNormal upper.now }
    requires lower { IsNormal lower.now }
    ensures means { IfOk result (λ form. SameMeaning (meaning form) (minus (meaning upper.now) (meaning lower.now))) }
    ensures normal { IfOk result (λ form. IsNormal form) }
    ensures within { OnOk result (FitsLimits (upper.now.den *ℤ lower.now.den)) }
    ensures number { (wide : WideAtValue) → result ≡ Err (Number wide) → IsDifferenceWide upper.now lower.now wide }
    ensures steps { ¬ (result ≡ Err Steps) }
{
    multiples_are_over_the_product();
    let negated = opposite(alloc, lower)?;
    match plus(alloc, upper, &negated) {
        Ok(form) => Ok(form),
        Err(fail) => Err(refused(alloc, upper, negated, fail)),
    }
}
