//! The sides of a row of a tight sum.
ghost use Rattle.std.specs.Prelude.{◌≡◌, Bool, length, Some, IfOk, IfSome};
ghost use Rattle.std.specs.List.{Contains};
ghost use Rattle.ae_core.specs.declared.formulas.Lit.{Lit as LitValue};
ghost use Rattle.ae_core.specs.declared.terms.Sort.{Int};
ghost use Rattle.ae_inequalities.specs.Rows.{IsRightRow};
ghost use Rattle.ae_journal.specs.Sides as spec;
ghost use Rattle.ae_journal.specs.States.{inequality};
ghost use Rattle.ae_num.specs.Forms.{IsNormal};
ghost use Rattle.ae_row_sides.specs.Names.{AreNames};
ghost use Rattle.ae_theory.specs.Names.{terms_in};
ghost use Rattle.ae_tight_sides.specs.Rounded as lines;
ghost use Rattle.ae_tight_sides.specs.Sides.{AreSidesOf};

use ae_core::copies::copy_term;
use ae_core::formulas::Lit;
use ae_core::lists::at;
use ae_core::proofs::{Deriv, EqLine};
use ae_core::terms::Term;
use ae_inequalities::rows::Row;
use ae_literal_rows::comparing::sides;
use ae_num::forms::Lin;
use ae_row_sides::sides::{other_side, side};
use ae_store::store::Store;
use std::alloc::{AllocError, Global};

/// The two sides, the one that isn't greater first.
#[derive(Drop)]
pub struct Sides {
    pub left: Term,
    pub right: Term,
}

/// Whether a line rounds what an earlier one says.
fn is_rounding(line: &EqLine) -> bool
    ensures { result ≡ lines.is_rounding line.now }
{
    match line {
        EqLine::LeRound { .. } => true,
        _ => false,
    }
}

/// Whether the lines of a row end with a rounding.
fn ends_rounded(deriv: &Deriv) -> bool
    ensures { result ≡ lines.ends_rounded deriv.now.lines }
{
    let count = deriv.lines.len();
    let last = count.saturating_sub(1);
    match at(deriv.lines.as_slice(), last) {
        None => false,
        Some(line) => is_rounding(line),
    }
}

/// The sides of an inequality literal.
fn literal_sides(alloc: Global, lit: &Lit) -> Result<Option<Sides>, AllocError>
    ensures { IfOk result (λ o. IfSome o (λ both. (strict : Bool) × (inequality lit.now ≡ Some (both.right, both.left, strict)))) }
{
    match sides(lit) {
        None => Ok(None),
        Some(found) => {
            let left = copy_term(alloc, found.lower)?;
            let right = copy_term(alloc, found.upper)?;
            Ok(Some(Sides { left, right }))
        }
    }
}

/// The sides of a row over integers.
fn row_sides(alloc: Global, store: &Store, form: &Lin) -> Result<Sides, AllocError>
    requires normal { IsNormal form.now }
    requires names { AreNames (length store.now.nodes) form.now.parts }
    ensures left { IfOk result (λ both. both.left ≡ spec.other_side Int (terms_in store.now) form.now) }
    ensures right { IfOk result (λ both. both.right ≡ spec.side Int (terms_in store.now) form.now) }
{
    let left = other_side(alloc, store, form)?;
    let right = side(alloc, store, form)?;
    Ok(Sides { left, right })
}

/// The sides of the first hypothesis of some lines, if it is an inequality.
fn first_sides(alloc: Global, deriv: &Deriv) -> Result<Option<Sides>, AllocError>
    ensures { IfOk result (λ o. IfSome o (λ both. (l : LitValue) × (strict : Bool) × Contains deriv.now.hyps l × (inequality l ≡ Some (both.right, both.left, strict)))) }
{
    match at(deriv.hyps.as_slice(), 0) {
        None => Ok(None),
        Some(lit) => literal_sides(alloc, lit),
    }
}

/// The sides of a row of a tight sum: of a rounded one those that its form states, else those of its literal. `None` where the row is a number, or its first
/// hypothesis is no inequality.
pub fn tight_sides(alloc: Global, store: &Store, row: &Row) -> Result<Option<Sides>, AllocError>
    requires right { IsRightRow store.now.signature (terms_in store.now) row.now }
    requires normal { IsNormal row.now.lin }
    ensures { IfOk result (λ o. IfSome o (λ both. AreSidesOf (terms_in store.now) row.now both)) }
{
    if row.lin.parts.is_empty() {
        return Ok(None);
    }
    let integral = row.integral;
    if integral {
        let rounded = ends_rounded(&row.from.deriv);
        if rounded {
            let both = row_sides(alloc, store, &row.lin)?;
            return Ok(Some(both));
        }
    }
    first_sides(alloc, &row.from.deriv)
}
