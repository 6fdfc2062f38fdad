//! Kept rows by their largest names, the greatest name first.

ghost use Rattle.std.specs.Prelude.{◌≡◌, ◌≢◌, ◌⊎◌, ◌+◌, ◌<◌, ◌≤◌, true, false, [], length, Some, IfOk, OnOk, IfSome};
ghost use Rattle.std.specs.List.{AllByRecursion};
ghost use Rattle.ae_num.specs.Forms.{IsNormal};
ghost use Rattle.ae_ineq.specs.Inner.Sets.{IsRow, last_part, name_reach};
ghost use Rattle.ae_bound_points.specs.Inner.Stages.{IsLowerPart, IsUpperPart, IsPushed, IsAdded, IsStageOf, IsBeneath, IsNext, AreStaged};

use ae_bounds::rows::Row;
use ae_ineq::elimination::Stage;
use ae_ineq::rows::{Row as Directed, last, row_of};
use ae_num::copies::copied;
use ae_num::forms::{Name, Part};
use sqlite_items::Items;
use std::alloc::{AllocError, Global};

/// The last part of the form of a row, which has its largest name.
fn last_of(row: &Row) -> Option<Part>
    ensures { result ≡ last_part row.now.lin.parts }
{
    last(row.lin.parts.as_slice())
}

/// Whether a form with this last part bounds a name from below.
fn is_lower(part: Part, name: Name) -> bool
    ensures yes { result ≡ true → IsLowerPart name part }
    ensures no { result ≡ false → IsLowerPart name part → ⊥ }
{
    part.key == name && part.factor > 0
}

/// Whether a form with this last part bounds a name from above.
fn is_upper(part: Part, name: Name) -> bool
    ensures yes { result ≡ true → IsUpperPart name part }
    ensures no { result ≡ false → IsUpperPart name part → ⊥ }
{
    part.key == name && part.factor < 0
}

/// A row with its direction.
fn directed(alloc: Global, row: &Row) -> Result<Directed, AllocError>
    requires normal { IsNormal row.now.lin }
    requires names { row.now.lin.parts ≢ [] }
    ensures form { IfOk result (λ made. made.lin ≡ row.now.lin) }
    ensures known { IfOk result (λ made. IsRow made) }
{
    let lin = copied(alloc, &row.lin)?;
    row_of(alloc, lin, row.strict)
}

/// Adds a row with its direction.
fn add_row(alloc: Global, made: &mut Items<Directed>, row: &Row) -> Result<(), AllocError>
    requires normal { IsNormal row.now.lin }
    requires names { row.now.lin.parts ≢ [] }
    ensures { OnOk result (IsPushed row.now made.old made.new) }
{
    let next = directed(alloc, row)?;
    made.push(next)?;
    Ok(())
}

/// Adds a row that bounds a name from below, where it is the largest one.
fn add_lower(
    alloc: Global,
    made: &mut Items<Directed>,
    row: &Row,
    name: Name,
) -> Result<(), AllocError>
    requires { IsNormal row.now.lin }
    ensures { OnOk result (IsAdded (IsLowerPart name) row.now made.old made.new) }
{
    let Some(part) = last_of(row) else {
        return Ok(());
    };
    if !is_lower(part, name) {
        return Ok(());
    }
    add_row(alloc, made, row)
}

/// Adds a row that bounds a name from above, where it is the largest one.
fn add_upper(
    alloc: Global,
    made: &mut Items<Directed>,
    row: &Row,
    name: Name,
) -> Result<(), AllocError>
    requires { IsNormal row.now.lin }
    ensures { OnOk result (IsAdded (IsUpperPart name) row.now made.old made.new) }
{
    let Some(part) = last_of(row) else {
        return Ok(());
    };
    if !is_upper(part, name) {
        return Ok(());
    }
    add_row(alloc, made, row)
}

/// The rows of which a name is the largest one.
fn stage_of(alloc: Global, rows: &[Row], name: Name) -> Result<Stage, AllocError>
    requires { AllByRecursion (λ row. IsNormal row.lin) rows.now }
    ensures { IfOk result (λ stage. IsStageOf rows.now name stage) }
{
    let mut lowers = Items::new(alloc);
    let mut uppers = Items::new(alloc);
    for place in 0..rows.len() {
        let row = &rows[place];
        add_lower(alloc, &mut lowers, row, name)?;
        add_upper(alloc, &mut uppers, row, name)?;
    }
    Ok(Stage {
        name,
        lowers,
        uppers,
    })
}

/// Whether a name is below another, where there is one.
fn is_below(name: Name, bound: Option<Name>) -> bool
    ensures yes { result ≡ true → IsBeneath bound name }
    ensures no { result ≡ false → IsBeneath bound name → ⊥ }
{
    match bound {
        Some(bound) => name < bound,
        None => true,
    }
}

/// The greater of two names, of which the first may be absent.
fn greater(found: Option<Name>, name: Name) -> Name
    ensures one { (result ≡ name) ⊎ (found ≡ Some result) }
    ensures new { name ≤ result }
    ensures old { name_reach found ≤ result + 1 }
{
    match found {
        Some(old) => { if name < old { old } else { name } }
        None => name,
    }
}

/// The greater of a name and that of a part, where that is below a bound.
fn greater_below(found: Option<Name>, part: Option<Part>, bound: Option<Name>) -> Option<Name>
    ensures below { IfSome found (IsBeneath bound) → IfSome result (IsBeneath bound) }
    ensures more { name_reach found ≤ name_reach result }
    ensures part { IfSome part (λ p. IsBeneath bound p.key → p.key < name_reach result) }
{
    match part {
        Some(part) => {
            if !is_below(part.key, bound) {
                return found;
            }
            Some(greater(found, part.key))
        }
        None => found,
    }
}

/// The greatest of the largest names of the rows that are below a bound.
fn next_name(rows: &[Row], bound: Option<Name>) -> Option<Name>
    ensures { IsNext rows.now (length rows.now) bound result }
{
    let mut found: Option<Name> = None;
    for place in 0..rows.len() {
        let row = &rows[place];
        found = greater_below(found, last_of(row), bound);
    }
    found
}

/// The rows with names by their largest names, the greatest first.
pub fn stages_of(alloc: Global, rows: &[Row]) -> Result<Items<Stage>, AllocError>
    requires { AllByRecursion (λ row. IsNormal row.lin) rows.now }
    ensures { IfOk result (λ made. AreStaged rows.now 0 made) }
{
    let mut stages: Items<Stage> = Items::new(alloc);
    let mut next = next_name(rows, None);
    'names: while let Some(name) = next {
        let stage = stage_of(alloc, rows, name)?;
        stages.push(stage)?;
        next = next_name(rows, Some(name));
    }
    Ok(stages)
}
