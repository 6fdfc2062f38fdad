//! What kept rows come to.

ghost use Rattle.std.specs.Prelude.{ℕ, List, ◌≡◌, ◌<ℤ◌, ◌⊎◌, ◌++◌, ◌∷◌, [], pos, true, false, IfSome, IfNone};
ghost use Rattle.std.specs.List.{AllByRecursion};
ghost use Rattle.ae_num.specs.Forms.{IsNormal, meaning};
ghost use Rattle.ae_bounds.specs.Combinations.{HasZero};
ghost use Rattle.ae_bounds.specs.Findings.{given_in, AreFounded, IsRefutedAt, IsTightAt, NoneIsRefuted, HasRefuted};
ghost use Rattle.ae_ineq.specs.Sums.{IsRefuted, HasTightSum, HasRefutedSum};
ghost use Rattle.ae_bounds.specs.declared.finding.Found.TheVariants.{Open, Tight, Contradiction};
ghost use Rattle.ae_bounds.specs.declared.rows.Row.{Row as RowValue};
ghost use Rattle.ae_bounds.specs.declared.rows.Origin.TheVariants.{Combined};

use crate::directions::is_zero;
use crate::rows::{Origin, Row};
use sqlite_items::Items;

/// What kept rows come to.
#[derive(Clone, Copy, Debug, PartialEq, Eq)]
pub enum Found {
    /// No row is a number that can't be, and no combination is 0.
    Open,
    /// The row of this number is a combination that is 0, and no row can't be.
    Tight(usize),
    /// The row of this number can't be.
    Contradiction(usize),
}

/// Whether a row is a number that can't be: it is negative, or 0 and strict.
fn is_refuted(row: &Row) -> bool
    ensures yes { result ≡ true → (row.now.lin.parts ≡ []) × ((row.now.lin.constant <ℤ pos 0) ⊎ ((row.now.lin.constant ≡ pos 0) × (row.now.strict ≡ true))) }
    ensures no { result ≡ false → row.now.lin.parts ≡ [] → ((row.now.lin.constant <ℤ pos 0) ⊎ ((row.now.lin.constant ≡ pos 0) × (row.now.strict ≡ true))) → ⊥ }
{
    row.lin.parts.is_empty() && (row.lin.constant < 0 || (row.lin.constant == 0 && row.strict))
}

/// Whether a row is a combination that is 0.
fn is_tight(row: &Row) -> bool
    ensures zero { result ≡ true → (row.now.lin.parts ≡ []) × (row.now.lin.constant ≡ pos 0) }
    ensures from { result ≡ true → (lower : ℕ) × (upper : ℕ) × (row.now.from ≡ Combined lower upper) }
    ensures no { result ≡ false → row.now.lin.parts ≡ [] → row.now.lin.constant ≡ pos 0 → (lower upper : ℕ) → row.now.from ≡ Combined lower upper → ⊥ }
{
    match row.from {
        Origin::Assumed(_) => false,
        Origin::Combined { .. } => is_zero(&row.lin),
    }
}

/// The first row that can't be.
fn first_refuted(rows: &[Row]) -> Option<usize>
    requires normal { AllByRecursion (λ row. IsNormal row.lin) rows.now }
    requires founded { AreFounded rows.now }
    ensures some { IfSome result (λ place. IsRefutedAt rows.now place) }
    ensures sum { IfSome result (λ place. HasRefutedSum (given_in rows.now)) }
    ensures none { IfNone result (NoneIsRefuted rows.now) }
{
    for place in 0..rows.len() {
        let row = &rows[place];
        if is_refuted(row) {
            return Some(place);
        }
    }
    None
}

/// Whether a row can't be.
pub fn has_refuted(rows: &Items<Row>) -> bool
    requires normal { AllByRecursion (λ row. IsNormal row.lin) rows.now }
    requires founded { AreFounded rows.now }
    ensures yes { result ≡ true → HasRefuted rows.now }
    ensures no { result ≡ false → NoneIsRefuted rows.now }
{
    match first_refuted(rows.as_slice()) {
        Some(_) => true,
        None => false,
    }
}

/// Whether the last row can't be.
pub fn ends_refuted(rows: &Items<Row>) -> bool
    requires normal { AllByRecursion (λ row. IsNormal row.lin) rows.now }
    ensures yes { result ≡ true → HasRefuted rows.now }
    ensures no { result ≡ false → (front : List RowValue) (row : RowValue) → rows.now ≡ front ++ row ∷ [] → IsRefuted row.strict (meaning row.lin) → ⊥ }
{
    match rows.as_slice().last() {
        Some(row) => is_refuted(row),
        None => false,
    }
}

/// The first combination that is 0, where no row can't be.
fn first_tight(rows: &[Row]) -> Option<usize>
    requires normal { AllByRecursion (λ row. IsNormal row.lin) rows.now }
    requires founded { AreFounded rows.now }
    requires none { NoneIsRefuted rows.now }
    ensures some { IfSome result (λ place. IsTightAt rows.now place) }
    ensures sum { IfSome result (λ place. HasTightSum (given_in rows.now)) }
    ensures none { IfNone result (HasZero rows.now → ⊥) }
{
    for place in 0..rows.len() {
        let row = &rows[place];
        if is_tight(row) {
            return Some(place);
        }
    }
    None
}

/// What rows come to. A contradiction comes before a tight sum.
pub fn found_in(rows: &[Row]) -> Found
    requires normal { AllByRecursion (λ row. IsNormal row.lin) rows.now }
    requires founded { AreFounded rows.now }
    ensures refuted { (place : ℕ) → result ≡ Contradiction place → IsRefutedAt rows.now place }
    ensures refuted_sum { (place : ℕ) → result ≡ Contradiction place → HasRefutedSum (given_in rows.now) }
    ensures tight { (place : ℕ) → result ≡ Tight place → IsTightAt rows.now place }
    ensures tight_sum { (place : ℕ) → result ≡ Tight place → HasTightSum (given_in rows.now) }
    ensures tight_last { (place : ℕ) → result ≡ Tight place → NoneIsRefuted rows.now }
    ensures open { result ≡ Open → NoneIsRefuted rows.now }
    ensures open_loose { result ≡ Open → HasZero rows.now → ⊥ }
{
    match first_refuted(rows) {
        Some(place) => Found::Contradiction(place),
        None => match first_tight(rows) {
            Some(place) => Found::Tight(place),
            None => Found::Open,
        },
    }
}
