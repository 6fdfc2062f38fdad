//! Rows by their largest names.

ghost use Rattle.std.specs.Prelude.{ℕ, ◌≡◌, ◌≢◌, ◌<◌, ◌++◌, ◌∷◌, [], OnOk, OnErr, Some, None, cond, nat_eq, length, slice_get};
ghost use Rattle.indexmap.specs.IndexMap.{get};
ghost use Rattle.std.specs.Option.{option_map_or};
ghost use Rattle.ae_ineq.specs.Inner.Sets.{last_part};
ghost use Rattle.ae_bounds.specs.declared.rows.Row.{Row as RowValue};
ghost use Rattle.ae_bounds.specs.Inner.Heads.{IsHeadOf};

use crate::rows::Row;
use ae_ineq::rows::last;
use ae_num::forms::{Name, Part};
use indexmap::IndexMap;
use sqlite_items::Items;
use std::alloc::{AllocError, Global};

/// The last of the rows with a name as the largest one.
fn latest_of(latest: &IndexMap<Name, usize>, name: Name) -> Option<usize>
    ensures { result ≡ get nat_eq latest.now name }
{
    latest.get(&name).copied()
}

/// The last of the rows with the same largest name as one with this last part.
pub fn head_of(latest: &IndexMap<Name, usize>, part: Option<Part>) -> Option<usize>
    ensures { IsHeadOf (get nat_eq latest.now) part result }
{
    match part {
        Some(part) => latest_of(latest, part.key),
        None => None,
    }
}

/// The row before the one of this number that has the same largest name.
pub fn place_before(earlier: &Items<Option<usize>>, place: usize) -> Option<usize>
    requires { place < length earlier.now }
    ensures { slice_get earlier.now place ≡ Some result }
{
    earlier.as_slice()[place]
}

/// The last part of the form of a row, which has its largest name.
fn last_of(row: &Row) -> Option<Part>
    ensures { result ≡ last_part row.now.lin.parts }
{
    last(row.lin.parts.as_slice())
}

/// The last part of the form of the row at a place.
fn last_in(rows: &[Row], place: usize) -> Option<Part>
    requires { place < length rows.now }
    ensures { (row : RowValue) → slice_get rows.now place ≡ Some row → result ≡ last_part row.lin.parts }
{
    let row = &rows[place];
    last_of(row)
}

/// The last part of the form of the row of this number.
pub fn last_at(rows: &Items<Row>, place: usize) -> Option<Part>
    requires { place < length rows.now }
    ensures { (row : RowValue) → slice_get rows.now place ≡ Some row → result ≡ last_part row.lin.parts }
{
    last_in(rows.as_slice(), place)
}

/// Takes off the last place.
fn take_last(earlier: &mut Items<Option<usize>>)
    requires { earlier.old ≢ [] }
    ensures { (front : _) (o : _) → earlier.old ≡ front ++ o ∷ [] → earlier.new ≡ front }
{
    earlier.pop();
}

/// Adds a row with a largest name, and with the row before it that has the same. Refused memory leaves all as it was.
fn enter_named(
    latest: &mut IndexMap<Name, usize>,
    earlier: &mut Items<Option<usize>>,
    name: Name,
    before: Option<usize>,
) -> Result<(), AllocError>
    ensures added { OnOk result (earlier.new ≡ earlier.old ++ before ∷ []) }
    ensures latest { OnOk result ((q : ℕ) → get nat_eq latest.new q ≡ cond (nat_eq name q) (Some (length earlier.old)) (get nat_eq latest.old q)) }
    ensures kept { OnErr result (earlier.new ≡ earlier.old) }
    ensures same { OnErr result ((q : ℕ) → get nat_eq latest.new q ≡ get nat_eq latest.old q) }
{
    let place = earlier.len();
    earlier.push(before)?;
    match latest.insert(name, place) {
        Ok(_) => Ok(()),
        Err(failed) => {
            take_last(earlier);
            Err(AllocError::from(failed))
        }
    }
}

/// Adds the row after these, which has this last part and this row before it with the same largest name. Refused memory leaves all as it was.
pub fn enter(
    latest: &mut IndexMap<Name, usize>,
    earlier: &mut Items<Option<usize>>,
    part: Option<Part>,
    before: Option<usize>,
) -> Result<(), AllocError>
    ensures added { OnOk result (earlier.new ≡ earlier.old ++ before ∷ []) }
    ensures latest { OnOk result ((q : ℕ) → get nat_eq latest.new q ≡ option_map_or (λ p. cond (nat_eq p.key q) (Some (length earlier.old)) (get nat_eq latest.old q)) part (get nat_eq latest.old q)) }
    ensures kept { OnErr result (earlier.new ≡ earlier.old) }
    ensures same { OnErr result ((q : ℕ) → get nat_eq latest.new q ≡ get nat_eq latest.old q) }
{
    match part {
        Some(part) => enter_named(latest, earlier, part.key, before),
        None => {
            earlier.push(before)?;
            Ok(())
        }
    }
}
