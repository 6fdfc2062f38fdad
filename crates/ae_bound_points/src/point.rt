//! The point of rows that are closed and open.

ghost use Rattle.std.specs.Prelude.{◌≡◌, IfOk, Err};
ghost use Rattle.std.specs.List.{AllByRecursion};
ghost use Rattle.ae_num.specs.Forms.{IsNormal};
ghost use Rattle.ae_rows.specs.Rows.{IsPoint};
ghost use Rattle.ae_ineq.specs.Widths.{IsPointWide};
ghost use Rattle.ae_ineq.specs.Inner.Points.{IsNumber, value_in};
ghost use Rattle.ae_ineq.specs.declared.steps.PointFail.TheVariants.{Wide};
ghost use Rattle.ae_journal.specs.declared.answers.WideAt.{WideAt};
ghost use Rattle.ae_bounds.specs.Rounding.{AreRounded};
ghost use Rattle.ae_bounds.specs.Combinations.{AreClosed, HasZero};
ghost use Rattle.ae_bounds.specs.Findings.{NoneIsRefuted};
ghost use Rattle.ae_bound_points.specs.Points.{IsNonzeroRow, ArePositiveAt};

use crate::stages::stages_of;
use ae_bounds::rows::Row;
use ae_ineq::point::{Valuation, point as point_of};
use ae_ineq::steps::PointFail;
use sqlite_items::Items;
use std::alloc::Global;

/// A point at which each row that isn't 0 is positive; a name that isn't listed has the value 0.
///
/// The rows have all their combinations, none can't be, and no combination is 0. The names get their values from the smallest up: the mean of the greatest lower
/// and the least upper bound, 1 beyond the only one, or 0. `Wide` comes only where a product or a sum of such a step leaves the limits.
pub fn point(alloc: Global, rows: &[Row]) -> Result<Items<Valuation>, PointFail>
    requires normal { AllByRecursion (λ row. IsNormal row.lin) rows.now }
    requires closed { AreClosed rows.now }
    requires rounded { AreRounded rows.now }
    requires possible { NoneIsRefuted rows.now }
    requires loose { HasZero rows.now → ⊥ }
    ensures positive { IfOk result (λ made. ArePositiveAt (value_in made) rows.now) }
    ensures chosen { IfOk result (λ made. IsPoint (IsNonzeroRow rows.now) (value_in made)) }
    ensures wide { (w : WideAt) → result ≡ Err (Wide w) → IsPointWide (IsNonzeroRow rows.now) w }
    ensures numbers { IfOk result (λ made. AllByRecursion (λ at. IsNumber at.value) made) }
{
    let stages = stages_of(alloc, rows)?;
    point_of(alloc, stages)
}
