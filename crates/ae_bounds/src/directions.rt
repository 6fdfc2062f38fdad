//! The directions of forms: equal ones for forms that are positive multiples of one another, found by their hash.
ghost use Rattle.std.specs.Prelude.{◌≡◌, ◌≢◌, ◌↔◌, [], IsTrue, IfOk, IfSome, Some, pos, true, false, fold, length, slice_get, ◌<◌};
ghost use Rattle.std.specs.List.{flat_map};
ghost use Rattle.ae_num.specs.Forms.{IsNormal};
ghost use Rattle.ae_bounds.specs.Inner.Directions.{IsDirectionOf, IsEarlier, part_written};
ghost use Rattle.ae_bounds.specs.declared.rows.Origin.TheVariants.{Assumed};

use crate::rows::Row;
use ae_ineq::rows::direction;
use ae_num::copies::{copied, same_form};
use ae_num::forms::{Lin, Part};
use std::alloc::{AllocError, Global};
use std::hash::{Hash, Hasher};

/// The positive multiple of a form in whole numbers without a common divisor; of the form 0 itself.
#[derive(Drop)]
pub struct Direction {
    pub form: Lin,
}

/// Whether two directions are the same.
fn same_direction(left: &Direction, right: &Direction) -> bool
    ensures { IsTrue result ↔ (left.now ≡ right.now) }
{
    same_form(&left.form, &right.form)
}

impl PartialEq for Direction {
    ghost use Rattle.ae_bounds.specs.Inner.Directions.{is_same, is_same_equiv};
    ghost use Rattle.std.specs.Cmp.{partial_equiv_from_equiv};

    ghost eq = { is_same };

    ghost laws = { partial_equiv_from_equiv is_same_equiv };

    fn eq(&self, other: &Direction) -> bool {
        same_direction(self, other)
    }
}

impl Eq for Direction {
    ghost use Rattle.ae_bounds.specs.Inner.Directions.{is_same_equiv};

    ghost laws = { is_same_equiv };
}

/// Writes a part's name and factor.
fn hash_part<H: Hasher>(part: &Part, state: &mut H)
    ensures { state.new ≡ fold H.write state.old (part_written part.now) }
{
    state.write_usize(part.key);
    state.write_i128(part.factor);
}

/// The part at a place.
fn part_at(parts: &[Part], place: usize) -> &Part
    requires { place < length parts.now }
    ensures { slice_get parts.now place ≡ Some result.now }
{
    &parts[place]
}

/// Writes each part in turn.
fn hash_parts<H: Hasher>(parts: &[Part], state: &mut H)
    ensures { state.new ≡ fold H.write state.old (flat_map part_written parts.now) }
{
    for i in 0..parts.len() {
        let part = part_at(parts, i);
        hash_part(part, state);
    }
}

impl Hash for Direction {
    ghost use Rattle.ae_bounds.specs.Inner.Directions.{written, written_alike};

    ghost hash_input = { written };

    ghost respects_eq = { written_alike };

    fn hash<H: Hasher>(&self, state: &mut H) {
        state.write_i128(self.form.constant);
        hash_parts(self.form.parts.as_slice(), state);
    }
}

/// Whether a form is 0.
pub fn is_zero(form: &Lin) -> bool
    ensures zero { result ≡ true → (form.now.parts ≡ []) × (form.now.constant ≡ pos 0) }
    ensures nonzero { result ≡ false → form.now.parts ≡ [] → form.now.constant ≢ pos 0 }
{
    form.parts.is_empty() && form.constant == 0
}

/// The direction of a form in the normal form.
pub fn direction_of(alloc: Global, form: &Lin) -> Result<Direction, AllocError>
    requires { IsNormal form.now }
    ensures { IfOk result (λ found. IsDirectionOf form.now found.form) }
{
    if is_zero(form) {
        let form = copied(alloc, form)?;
        return Ok(Direction { form });
    }
    let form = direction(alloc, form)?;
    Ok(Direction { form })
}

/// The direction of the form that an assumed row had before it was rounded.
pub fn earlier_direction(
    alloc: Global,
    row: &Row,
    tag: usize,
) -> Result<Option<Direction>, AllocError>
    requires assumed { row.now.from ≡ Assumed tag }
    requires normal { IfSome row.now.unrounded (λ u. IsNormal u.lin) }
    ensures { IfOk result (λ found. IsEarlier row.now found) }
{
    match &row.unrounded {
        Some(earlier) => {
            let found = direction_of(alloc, &earlier.lin)?;
            Ok(Some(found))
        }
        None => Ok(None),
    }
}
