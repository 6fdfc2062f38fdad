//! Rows as they are kept: those of sort `int` are rounded.

ghost use Rattle.std.specs.Prelude.{◌≡◌, true, false, IfOk, None};
ghost use Rattle.ae_num.specs.Forms.{IsNormal};
ghost use Rattle.ae_bounds.specs.Rounding.{IsRowOf, StaysUnrounded};

use crate::rows::{Origin, Row, Unrounded};
use ae_num::copies::same_form;
use ae_num::forms::Lin;
use ae_rounding::rounding::rounded;
use std::alloc::{AllocError, Global};

/// The row of a form that isn't rounded.
fn as_it_is(lin: Lin, strict: bool, integral: bool, counts: bool, from: Origin) -> Row
    requires stays { integral ≡ true → StaysUnrounded strict lin }
    ensures row { IsRowOf lin strict result }
    ensures same { result.lin ≡ lin }
    ensures integral { result.integral ≡ integral }
    ensures counts { result.counts ≡ counts }
    ensures from { result.from ≡ from }
{
    Row {
        lin,
        strict,
        integral,
        unrounded: None,
        counts,
        from,
    }
}

/// Whether rounding has left a row as it was.
fn is_unchanged(lin: &Lin, strict: bool, form: &Lin) -> bool
    ensures loose { result ≡ true → strict ≡ false }
    ensures same { result ≡ true → form.now ≡ lin.now }
{
    !strict && same_form(form, lin)
}

/// The row of a form over integers, rounded where it has names, its rounded constant is within the limits, and rounding changes it.
fn rounded_row(
    alloc: Global,
    lin: Lin,
    strict: bool,
    counts: bool,
    from: Origin,
) -> Result<Row, AllocError>
    requires normal { IsNormal lin }
    ensures row { IfOk result (λ row. IsRowOf lin strict row) }
    ensures normal { IfOk result (λ row. IsNormal row.lin) }
    ensures integral { IfOk result (λ row. row.integral ≡ true) }
    ensures counts { IfOk result (λ row. row.counts ≡ counts) }
    ensures from { IfOk result (λ row. row.from ≡ from) }
{
    if lin.parts.is_empty() {
        return Ok(as_it_is(lin, strict, true, counts, from));
    }
    let Some(form) = rounded(alloc, &lin, strict)? else {
        return Ok(as_it_is(lin, strict, true, counts, from));
    };
    if is_unchanged(&lin, strict, &form) {
        return Ok(as_it_is(lin, strict, true, counts, from));
    }
    Ok(Row {
        lin: form,
        strict: false,
        integral: true,
        unrounded: Some(Unrounded { lin, strict }),
        counts,
        from,
    })
}

/// The row of a form, rounded where it is one over integers.
pub fn row_of(
    alloc: Global,
    lin: Lin,
    strict: bool,
    integral: bool,
    counts: bool,
    from: Origin,
) -> Result<Row, AllocError>
    requires normal { IsNormal lin }
    ensures row { IfOk result (λ row. IsRowOf lin strict row) }
    ensures normal { IfOk result (λ row. IsNormal row.lin) }
    ensures integral { IfOk result (λ row. row.integral ≡ integral) }
    ensures counts { IfOk result (λ row. row.counts ≡ counts) }
    ensures from { IfOk result (λ row. row.from ≡ from) }
{
    if integral {
        return rounded_row(alloc, lin, strict, counts, from);
    }
    Ok(as_it_is(lin, strict, false, counts, from))
}
