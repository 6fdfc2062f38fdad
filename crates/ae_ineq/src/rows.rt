//! Rows: linear forms over names that aren't negative, or are positive.

ghost use Rattle.std.specs.Prelude.{◌≡◌, ◌≢◌, ◌≤◌, ◌<◌, ◌<ℤ◌, pos, true, false, IfOk, length, unsigned_abs, []};
ghost use Rattle.ae_num.specs.Forms.{IsNormal, meaning, IsCommonDivisor, sizes};
ghost use Rattle.ae_num.specs.Limits.{FitsLimits};
ghost use Rattle.ae_ineq.specs.Inner.Primitive.{IsPrimitive};
ghost use Rattle.ae_ineq.specs.Inner.Sets.{last_part, IsMultiple, IsRow, HasDirection};

use ae_num::copies::same_form;
use ae_num::forms::{Lin, Part};
use ae_num::reduction::{common_divisor, reduced};
use sqlite_items::Items;
use std::alloc::{AllocError, Global};

/// `lin >= 0`, or `lin > 0` where `strict`; `direction` is the positive multiple of `lin` in whole numbers without a common divisor.
#[derive(Debug, Drop)]
pub struct Row {
    pub lin: Lin,
    pub strict: bool,
    pub direction: Lin,
}

/// The last part, which has the largest name.
pub fn last(parts: &[Part]) -> Option<Part>
    ensures { result ≡ last_part parts.now }
{
    if parts.is_empty() {
        return None;
    }
    Some(parts[parts.len() - 1])
}

/// The form over the greatest common divisor of its constant and its factors, in place of its denominator.
fn over_content(alloc: Global, form: &Lin) -> Result<Lin, AllocError>
    requires normal { IsNormal form.now }
    requires nonzero { form.now.parts ≡ [] → form.now.constant ≢ pos 0 }
    ensures parts { IfOk result (λ whole. whole.parts ≡ form.now.parts) }
    ensures constant { IfOk result (λ whole. whole.constant ≡ form.now.constant) }
    ensures positive { IfOk result (λ whole. pos 0 <ℤ whole.den) }
    ensures within { IfOk result (λ whole. FitsLimits whole.den) }
    ensures common { IfOk result (λ whole. IsCommonDivisor (sizes form.now.constant form.now.parts form.now.constant) (unsigned_abs whole.den)) }
{
    let numbers = Lin {
        den: form.constant,
        parts: Items::from_slice(alloc, form.parts.as_slice())?,
        constant: form.constant,
    };
    let divisor = common_divisor(&numbers);
    let Lin {
        den: _,
        parts,
        constant,
    } = numbers;
    Ok(Lin {
        den: divisor,
        parts,
        constant,
    })
}

/// The positive multiple of a form in whole numbers without a common divisor.
pub fn direction(alloc: Global, form: &Lin) -> Result<Lin, AllocError>
    requires normal { IsNormal form.now }
    requires nonzero { form.now.parts ≡ [] → form.now.constant ≢ pos 0 }
    ensures multiple { IfOk result (λ f. IsMultiple (meaning form.now) (meaning f)) }
    ensures normal { IfOk result (λ f. IsNormal f) }
    ensures primitive { IfOk result (λ f. IsPrimitive f) }
{
    let whole = over_content(alloc, form)?;
    reduced(alloc, &whole)
}

/// A row of a form in the normal form.
pub fn row_of(alloc: Global, lin: Lin, strict: bool) -> Result<Row, AllocError>
    requires normal { IsNormal lin }
    requires nonzero { lin.parts ≡ [] → lin.constant ≢ pos 0 }
    ensures form { IfOk result (λ row. row.lin ≡ lin) }
    ensures strict { IfOk result (λ row. row.strict ≡ strict) }
    ensures known { IfOk result (λ row. IsRow row) }
{
    let direction = direction(alloc, &lin)?;
    Ok(Row {
        lin,
        strict,
        direction,
    })
}

/// Whether one of the rows has the direction.
pub fn has_direction(rows: &[Row], direction: &Lin) -> bool
    ensures one { result ≡ true → HasDirection rows.now direction.now }
    ensures none { result ≡ false → ¬ HasDirection rows.now direction.now }
{
    for row in rows {
        if same_form(&row.direction, direction) {
            return true;
        }
    }
    false
}
