//! The defining clauses of connectives, each a row with its number, and the rows that the truth of a literal calls for.
ghost use Rattle.std.specs.Prelude.{◌≡◌, ◌∷◌, ◌++◌, [], IfOk};
ghost use Rattle.ae_rules.specs.Clauses as spec;
ghost use Rattle.ae_rules.specs.Defining.{called_rows};

use crate::literals::{fails, no_of, stands, yes_of};
use ae_core::formulas::{Clause, Formula, Lit};
use ae_core::lists::List;
use std::alloc::{AllocError, Global};

/// Where a conjunction is true, its left part is.
pub const AND_TO_LEFT: usize = 1;
/// Where a conjunction is true, its right part is.
pub const AND_TO_RIGHT: usize = 2;
/// Where both parts are true, the conjunction is.
pub const AND_FROM_BOTH: usize = 3;
/// Where the left part is true, the disjunction is.
pub const OR_FROM_LEFT: usize = 4;
/// Where the right part is true, the disjunction is.
pub const OR_FROM_RIGHT: usize = 5;
/// Where a disjunction is true, one of its parts is.
pub const OR_TO_EITHER: usize = 6;
/// Where an equivalence and its left part are true, its right part is.
pub const IFF_TO_RIGHT: usize = 7;
/// Where an equivalence and its right part are true, its left part is.
pub const IFF_TO_LEFT: usize = 8;
/// Where neither part is true, the equivalence is.
pub const IFF_FROM_NEITHER: usize = 9;
/// Where both parts are true, the equivalence is.
pub const IFF_FROM_BOTH: usize = 10;
/// Where an exclusive disjunction is true, one of its parts is.
pub const XOR_TO_EITHER: usize = 11;
/// Where an exclusive disjunction is true, one of its parts is false.
pub const XOR_TO_NOT_BOTH: usize = 12;
/// Where the left part alone is true, the exclusive disjunction is.
pub const XOR_FROM_LEFT: usize = 13;
/// Where the right part alone is true, the exclusive disjunction is.
pub const XOR_FROM_RIGHT: usize = 14;
/// True is true.
pub const TRUE_STANDS: usize = 15;
/// False is false.
pub const FALSE_FAILS: usize = 16;

/// The clause that a formula, as it stands, is true.
pub fn only_true(alloc: Global, formula: &Formula) -> Result<Clause, AllocError>
    ensures { IfOk result (λ c. c ≡ spec.is_true formula.now ∷ []) }
{
    let mut clause = List::new(alloc);
    clause.push(stands(alloc, formula)?)?;
    Ok(clause)
}

/// The clause that a formula, as it stands, is false.
pub fn only_false(alloc: Global, formula: &Formula) -> Result<Clause, AllocError>
    ensures { IfOk result (λ c. c ≡ spec.is_false formula.now ∷ []) }
{
    let mut clause = List::new(alloc);
    clause.push(fails(alloc, formula)?)?;
    Ok(clause)
}

/// The clause with one more literal at its end, that a formula is true.
pub fn or_yes(alloc: Global, clause: Clause, formula: &Formula) -> Result<Clause, AllocError>
    ensures { IfOk result (λ c. c ≡ clause ++ spec.yes_of formula.now ∷ []) }
{
    let mut clause = clause;
    clause.push(yes_of(alloc, formula)?)?;
    Ok(clause)
}

/// The clause with one more literal at its end, that a formula is false.
pub fn or_no(alloc: Global, clause: Clause, formula: &Formula) -> Result<Clause, AllocError>
    ensures { IfOk result (λ c. c ≡ clause ++ spec.no_of formula.now ∷ []) }
{
    let mut clause = clause;
    clause.push(no_of(alloc, formula)?)?;
    Ok(clause)
}

/// The row of this number of the conjunction `whole` of `a` and `b`; there is none where a conjunction has no such row.
fn and_row(
    alloc: Global,
    number: usize,
    whole: &Formula,
    a: &Formula,
    b: &Formula,
) -> Result<Option<Clause>, AllocError>
    ensures { IfOk result (λ c. c ≡ spec.and_row number whole.now a.now b.now) }
{
    let clause = match number {
        AND_TO_LEFT => or_yes(alloc, only_false(alloc, whole)?, a)?,
        AND_TO_RIGHT => or_yes(alloc, only_false(alloc, whole)?, b)?,
        AND_FROM_BOTH => or_no(alloc, or_no(alloc, only_true(alloc, whole)?, a)?, b)?,
        _ => return Ok(None),
    };
    Ok(Some(clause))
}

/// The row of this number of the disjunction `whole` of `a` and `b`; there is none where a disjunction has no such row.
fn or_row(
    alloc: Global,
    number: usize,
    whole: &Formula,
    a: &Formula,
    b: &Formula,
) -> Result<Option<Clause>, AllocError>
    ensures { IfOk result (λ c. c ≡ spec.or_row number whole.now a.now b.now) }
{
    let clause = match number {
        OR_FROM_LEFT => or_no(alloc, only_true(alloc, whole)?, a)?,
        OR_FROM_RIGHT => or_no(alloc, only_true(alloc, whole)?, b)?,
        OR_TO_EITHER => or_yes(alloc, or_yes(alloc, only_false(alloc, whole)?, a)?, b)?,
        _ => return Ok(None),
    };
    Ok(Some(clause))
}

/// The row of this number of the equivalence `whole` of `a` and `b`; there is none where an equivalence has no such row.
fn iff_row(
    alloc: Global,
    number: usize,
    whole: &Formula,
    a: &Formula,
    b: &Formula,
) -> Result<Option<Clause>, AllocError>
    ensures { IfOk result (λ c. c ≡ spec.iff_row number whole.now a.now b.now) }
{
    let clause = match number {
        IFF_TO_RIGHT => or_yes(alloc, or_no(alloc, only_false(alloc, whole)?, a)?, b)?,
        IFF_TO_LEFT => or_no(alloc, or_yes(alloc, only_false(alloc, whole)?, a)?, b)?,
        IFF_FROM_NEITHER => or_yes(alloc, or_yes(alloc, only_true(alloc, whole)?, a)?, b)?,
        IFF_FROM_BOTH => or_no(alloc, or_no(alloc, only_true(alloc, whole)?, a)?, b)?,
        _ => return Ok(None),
    };
    Ok(Some(clause))
}

/// The row of this number of `whole`, which says that exactly one of `a` and `b` holds; there is none where an exclusive
/// disjunction has no such row.
fn xor_row(
    alloc: Global,
    number: usize,
    whole: &Formula,
    a: &Formula,
    b: &Formula,
) -> Result<Option<Clause>, AllocError>
    ensures { IfOk result (λ c. c ≡ spec.xor_row number whole.now a.now b.now) }
{
    let clause = match number {
        XOR_TO_EITHER => or_yes(alloc, or_yes(alloc, only_false(alloc, whole)?, a)?, b)?,
        XOR_TO_NOT_BOTH => or_no(alloc, or_no(alloc, only_false(alloc, whole)?, a)?, b)?,
        XOR_FROM_LEFT => or_yes(alloc, or_no(alloc, only_true(alloc, whole)?, a)?, b)?,
        XOR_FROM_RIGHT => or_no(alloc, or_yes(alloc, only_true(alloc, whole)?, a)?, b)?,
        _ => return Ok(None),
    };
    Ok(Some(clause))
}

/// The row of this number of the formula True; there is none where it has no such row.
fn true_row(alloc: Global, number: usize, whole: &Formula) -> Result<Option<Clause>, AllocError>
    ensures { IfOk result (λ c. c ≡ spec.true_row number whole.now) }
{
    match number {
        TRUE_STANDS => Ok(Some(only_true(alloc, whole)?)),
        _ => Ok(None),
    }
}

/// The row of this number of the formula False; there is none where it has no such row.
fn false_row(alloc: Global, number: usize, whole: &Formula) -> Result<Option<Clause>, AllocError>
    ensures { IfOk result (λ c. c ≡ spec.false_row number whole.now) }
{
    match number {
        FALSE_FAILS => Ok(Some(only_false(alloc, whole)?)),
        _ => Ok(None),
    }
}

/// The row of this number of a formula, which is the clause that a line `def` states; there is none where formulas of its kind
/// have no such row.
pub fn row(alloc: Global, number: usize, formula: &Formula) -> Result<Option<Clause>, AllocError>
    ensures { IfOk result (λ c. c ≡ spec.row number formula.now) }
{
    match formula {
        Formula::And(a, b) => and_row(alloc, number, formula, a.get(), b.get()),
        Formula::Or(a, b) => or_row(alloc, number, formula, a.get(), b.get()),
        Formula::Iff(a, b) => iff_row(alloc, number, formula, a.get(), b.get()),
        Formula::Xor(a, b) => xor_row(alloc, number, formula, a.get(), b.get()),
        Formula::True => true_row(alloc, number, formula),
        Formula::False => false_row(alloc, number, formula),
        Formula::Eq { .. } => Ok(None),
        Formula::Lt { .. } => Ok(None),
        Formula::Le { .. } => Ok(None),
        Formula::Pred { .. } => Ok(None),
        Formula::Not(_) => Ok(None),
        Formula::All(_) => Ok(None),
        Formula::Ex(_) => Ok(None),
    }
}

/// A list of one row.
fn one(alloc: Global, row: usize) -> Result<List<usize>, AllocError>
    ensures { IfOk result (λ rows. rows ≡ row ∷ []) }
{
    let mut rows = List::new(alloc);
    rows.push(row)?;
    Ok(rows)
}

/// A list of two rows.
fn two(alloc: Global, first: usize, second: usize) -> Result<List<usize>, AllocError>
    ensures { IfOk result (λ rows. rows ≡ first ∷ second ∷ []) }
{
    let mut rows = one(alloc, first)?;
    rows.push(second)?;
    Ok(rows)
}

/// The numbers of the rows that say what the truth of a literal means for the parts of its formula, rising: of a conjunction 1
/// and 2 where it is true, 3 where it is false; of a disjunction 6, or 4 and 5; of an equivalence 7 and 8, or 9 and 10; of an
/// exclusive disjunction 11 and 12, or 13 and 14; of True 15 and of False 16, whatever the sign. There is none for an atom, a
/// block of variables or a negation.
#[tactic(auto, using(crate::proofs::Defining::called_rules))]
pub fn called_rows(alloc: Global, lit: &Lit) -> Result<List<usize>, AllocError>
    ensures { IfOk result (λ rows. rows ≡ called_rows lit.now.positive lit.now.formula) }
{
    match &lit.formula {
        Formula::And(_, _) if lit.positive => two(alloc, AND_TO_LEFT, AND_TO_RIGHT),
        Formula::And(_, _) => one(alloc, AND_FROM_BOTH),
        Formula::Or(_, _) if lit.positive => one(alloc, OR_TO_EITHER),
        Formula::Or(_, _) => two(alloc, OR_FROM_LEFT, OR_FROM_RIGHT),
        Formula::Iff(_, _) if lit.positive => two(alloc, IFF_TO_RIGHT, IFF_TO_LEFT),
        Formula::Iff(_, _) => two(alloc, IFF_FROM_NEITHER, IFF_FROM_BOTH),
        Formula::Xor(_, _) if lit.positive => two(alloc, XOR_TO_EITHER, XOR_TO_NOT_BOTH),
        Formula::Xor(_, _) => two(alloc, XOR_FROM_LEFT, XOR_FROM_RIGHT),
        Formula::True => one(alloc, TRUE_STANDS),
        Formula::False => one(alloc, FALSE_FAILS),
        Formula::Eq { .. } => Ok(List::new(alloc)),
        Formula::Lt { .. } => Ok(List::new(alloc)),
        Formula::Le { .. } => Ok(List::new(alloc)),
        Formula::Pred { .. } => Ok(List::new(alloc)),
        Formula::Not(_) => Ok(List::new(alloc)),
        Formula::All(_) => Ok(List::new(alloc)),
        Formula::Ex(_) => Ok(List::new(alloc)),
    }
}
