//! Steps on forms: where a product or a sum of one leaves the limits, the failure has the step's operands.

ghost use Rattle.std.specs.Prelude.{◌≡◌, None, Some, pos, ◌<ℤ◌, false, IfOk, Err, []};
ghost use native.Mathlib.Decide.{ℕ_discrete};
ghost use Rattle.ae_math.specs.Fractions.{◌+ℚ◌, ◌*ℚ◌};
ghost use Rattle.ae_math.specs.Forms.{substitute};
ghost use Rattle.ae_num.specs.Forms.{meaning, SameMeaning, IsNormal, has_key};
ghost use Rattle.ae_num.specs.declared.numbers.NumFail.TheVariants.{Wide as WideFail};
ghost use Rattle.ae_journal.specs.declared.answers.NumStep.TheVariants.{Plus, Scale, Subst};
ghost use Rattle.ae_journal.specs.declared.answers.WideAt.{WideAt};
ghost use Rattle.ae_ineq.specs.declared.steps.PointFail.TheVariants.{Wide, Memory};
ghost use Rattle.ae_ineq.specs.Widths.{IsWideAt};
ghost use Rattle.ae_ineq.specs.Inner.Points.{IsNumber, amount};
ghost use Rattle.ae_ineq.specs.Inner.Steps.{IsStepOf};

use ae_journal::answers::{NumStep, WideAt};
use ae_num::forms::{Lin, Name, plus, scale, subst};
use ae_num::numbers::NumFail;
use std::alloc::{AllocError, Global};

/// Why a step has no answer.
#[derive(Debug, Drop)]
pub enum PointFail {
    /// A product or a sum of it leaves the limits.
    Wide(WideAt),
    /// There was no memory.
    Memory(AllocError),
}

impl From<AllocError> for PointFail {
    ghost from_gives = { λ m e. e ≡ Memory m };

    fn from(refused: AllocError) -> PointFail {
        PointFail::Memory(refused)
    }
}

/// The failure of a step with these operands.
fn failed(step: NumStep, left: Lin, key: Option<Name>, right: Lin, fail: NumFail) -> PointFail
    ensures step { (w : WideAt) → result ≡ Wide w → IsStepOf step left key right w.step w.left w.key w.right }
    ensures wide { (w : WideAt) → result ≡ Wide w → fail ≡ WideFail w.wide }
{
    match fail {
        NumFail::Memory(refused) => PointFail::Memory(refused),
        NumFail::Wide(wide) => PointFail::Wide(WideAt {
            step,
            left,
            key,
            right,
            wide,
        }),
    }
}

/// The sum of two numbers.
pub fn added(alloc: Global, left: Lin, right: Lin) -> Result<Lin, PointFail>
    requires left { IsNumber left }
    requires right { IsNumber right }
    ensures number { IfOk result (λ sum. IsNumber sum) }
    ensures value { IfOk result (λ sum. amount sum ≡ amount left +ℚ amount right) }
    ensures wide { (w : WideAt) → result ≡ Err (Wide w) → IsWideAt (IsStepOf Plus left None right) w }
{
    match plus(alloc, &left, &right) {
        Ok(sum) => Ok(sum),
        Err(fail) => Err(failed(NumStep::Plus, left, None, right, fail)),
    }
}

/// The product of two numbers.
pub fn multiplied(alloc: Global, number: Lin, by: Lin) -> Result<Lin, PointFail>
    requires number { IsNumber number }
    requires by { IsNumber by }
    ensures number { IfOk result (λ product. IsNumber product) }
    ensures value { IfOk result (λ product. amount product ≡ amount by *ℚ amount number) }
    ensures wide { (w : WideAt) → result ≡ Err (Wide w) → IsWideAt (IsStepOf Scale number None by) w }
{
    match scale(alloc, by.constant, by.den, &number) {
        Ok(product) => Ok(product),
        Err(fail) => Err(failed(NumStep::Scale, number, None, by, fail)),
    }
}

/// The form with a number put for a name.
pub fn replaced(alloc: Global, form: Lin, key: Name, value: Lin) -> Result<Lin, PointFail>
    requires form { IsNormal form }
    requires value { IsNumber value }
    ensures exact { IfOk result (λ made. SameMeaning (meaning made) (substitute ℕ_discrete (meaning form) key (meaning value))) }
    ensures normal { IfOk result (λ made. IsNormal made) }
    ensures wide { (w : WideAt) → result ≡ Err (Wide w) → IsWideAt (IsStepOf Subst form (Some key) value) w }
{
    match subst(alloc, &form, key, &value) {
        Ok(made) => Ok(made),
        Err(fail) => Err(failed(NumStep::Subst, form, Some(key), value, fail)),
    }
}
