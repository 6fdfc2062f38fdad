//! The value in which a product or a sum leaves the limits, where a number can't be put for a name.
ghost use Rattle.std.specs.Prelude.{◌≡◌, ◌<◌, ℕ, false, Some, IfOk, IfSome, IfNone};
ghost use Rattle.ae_num.specs.Forms.{IsNormal, IfWide, has_key};
ghost use Rattle.ae_num.specs.declared.numbers.Wide.{Wide as WideStep};
ghost use Rattle.ae_linear.specs.declared.rows.Row.{Row};
ghost use Rattle.ae_linear.specs.Rows.{row_at, FitsAt, IsFirstWide};
ghost use Rattle.ae_value_fitting.specs.Refusals.{IfNumber};
ghost use Rattle.ae_values.specs.Inner.Leaving.{IsLeaving, IsRowWide};

use ae_journal::answers::{NumStep, WideAt};
use ae_num::copies::copied;
use ae_num::forms::{Lin, Name, subst};
use ae_num::numbers::{NumFail, Wide};
use ae_value_fitting::Refused;
use ae_value_table::Values;
use std::alloc::{AllocError, Global};

/// A form, and the first product or sum that leaves the limits where a number is put for a name in it.
#[derive(Drop)]
struct Leaving {
    form: Lin,
    wide: Wide,
}

/// What leaves the limits where a number is put for a name in the row of another.
fn leaving_of(
    alloc: Global,
    values: &Values,
    of: Name,
    name: Name,
    number: &Lin,
) -> Result<Option<Leaving>, AllocError>
    requires normal { IsNormal number.now }
    requires absent { has_key number.now.parts name ≡ false }
    ensures none { IfOk result (λ o. IfNone o (FitsAt (row_at values.now.rows of) name number.now)) }
    ensures some { IfOk result (λ o. IfSome o (λ l. IsLeaving (row_at values.now.rows of) name number.now l.form l.wide)) }
{
    let Some(row) = values.row(of) else {
        return Ok(None);
    };
    match subst(alloc, &row.value, name, number) {
        Ok(_) => Ok(None),
        Err(NumFail::Memory(refused)) => Err(refused),
        Err(NumFail::Wide(wide)) => {
            let form = copied(alloc, &row.value)?;
            Ok(Some(Leaving { form, wide }))
        }
    }
}

/// The step that leaves the limits where a number can't be put for a name: that of the first row, by rising name.
fn first_width(
    alloc: Global,
    values: &Values,
    name: Name,
    number: Lin,
) -> Result<WideAt, AllocError>
    requires normal { IsNormal number }
    requires absent { has_key number.parts name ≡ false }
    requires within { (n : ℕ) (row : Row) → row_at values.now.rows n ≡ Some row → n < values.now.taken }
    requires wide { (wide : WideStep) × IsFirstWide (λ n. row_at values.now.rows n) name number wide }
    ensures { IfOk result (λ width. IsRowWide values.now name number width) }
{
    for of in 0..values.len() {
        if let Some(found) = leaving_of(alloc, values, of, name, &number)? {
            return Ok(WideAt {
                step: NumStep::Subst,
                left: found.form,
                key: Some(name),
                right: number,
                wide: found.wide,
            });
        }
    }
    unreachable!()
}

/// Why a number can't be put for a name, by why its rows refuse it.
pub(crate) fn refused_by(
    alloc: Global,
    values: &Values,
    name: Name,
    number: Lin,
    fail: NumFail,
) -> Refused
    requires normal { IsNormal number }
    requires absent { has_key number.parts name ≡ false }
    requires within { (n : ℕ) (row : Row) → row_at values.now.rows n ≡ Some row → n < values.now.taken }
    requires wide { IfWide fail (λ wide. IsFirstWide (λ n. row_at values.now.rows n) name number wide) }
    ensures { IfNumber result (λ width. IsRowWide values.now name number width) }
{
    match fail {
        NumFail::Memory(refused) => Refused::Memory(refused),
        NumFail::Wide(_wide) => match first_width(alloc, values, name, number) {
            Ok(width) => Refused::Number(width),
            Err(refused) => Refused::Memory(refused),
        },
    }
}
