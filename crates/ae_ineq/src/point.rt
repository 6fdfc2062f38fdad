//! The point that is built from the smallest name up.

ghost use Rattle.std.specs.Prelude.{◌≡◌, ◌≢◌, ℕ, [], true, false, IfOk, OnOk, Err, Some, None, pos, neg_ℤ, ◌<ℤ◌, ◌≤◌};
ghost use Rattle.std.specs.List.{AllByRecursion};
ghost use Rattle.ae_math.specs.Fractions.{ℚ, one_ℚ, zero_ℚ, neg_ℚ, inverse_ℚ, ◌+ℚ◌, ◌*ℚ◌, ratio, is_positive, is_below};
ghost use Rattle.ae_math.specs.Forms.{value};
ghost use Rattle.ae_num.specs.Forms.{meaning, IsNormal};
ghost use Rattle.ae_num.specs.Limits.{FitsLimits};
ghost use Rattle.ae_num.specs.declared.forms.Lin.{Lin};
ghost use Rattle.ae_journal.specs.Points.{half};
ghost use Rattle.ae_rows.specs.Rows.{factor_at, bound_at, IsPoint};
ghost use Rattle.ae_ineq.specs.Inner.Sets.{IsLowerRow, IsUpperRow, IsStage, HasStage};
ghost use Rattle.ae_journal.specs.declared.answers.WideAt.{WideAt};
ghost use Rattle.ae_ineq.specs.declared.steps.PointFail.TheVariants.{Wide};
ghost use Rattle.ae_ineq.specs.Widths.{IsWideAt, IsPlaced, IsRowStep, IsPointWide};
ghost use Rattle.ae_ineq.specs.Inner.Steps.{IsWideOf, IsDifference, IsDivision, IsSideStep, IsChoiceStep};
ghost use Rattle.ae_ineq.specs.Inner.Points.{IsNumber, IsNumberOrNone, value_in, Agrees, amount, IsGreaterOf, IsLesserOf, IsGreatestBound, IsLeastBound, IsChosen, AreFalling};

use crate::elimination::Stage;
use crate::rows::{Row, last};
use crate::steps::{PointFail, added, multiplied, replaced};
use ae_num::copies::copied;
use ae_num::forms::{Lin, Name, fraction, one, zero};
use sqlite_items::Items;
use std::alloc::{AllocError, Global};

/// A name and its value, a number.
#[derive(Debug, Drop)]
pub struct Valuation {
    pub name: Name,
    pub value: Lin,
}

/// The value of a name, 0 where it has none.
fn value_of(alloc: Global, point: &[Valuation], name: Name) -> Result<Lin, AllocError>
    requires { AllByRecursion (λ at. IsNumber at.value) point.now }
    ensures number { IfOk result (λ form. IsNumber form) }
    ensures value { IfOk result (λ form. ratio form.constant form.den ≡ value_in point.now name) }
{
    for at in point {
        if at.name == name {
            return copied(alloc, &at.value);
        }
    }
    Ok(zero(alloc))
}

/// The form with the value of one name put for it, but for the kept name.
fn put_one(
    alloc: Global,
    form: Lin,
    key: Name,
    name: Name,
    point: &[Valuation],
) -> Result<Lin, PointFail>
    requires key { key ≤ name }
    requires form { IsNormal form }
    requires point { AllByRecursion (λ at. IsNumber at.value) point.now }
    ensures normal { IfOk result (λ made. IsNormal made) }
    ensures values { IfOk result (λ made. (e : ℕ → ℚ) → Agrees name point.now e → value e one_ℚ (meaning made) ≡ value e one_ℚ (meaning form)) }
    ensures gone { IfOk result (λ made. key ≢ name → factor_at key (meaning made) ≡ zero_ℚ) }
    ensures zeros { IfOk result (λ made. (t : ℕ) → factor_at t (meaning form) ≡ zero_ℚ → factor_at t (meaning made) ≡ zero_ℚ) }
    ensures factor { IfOk result (λ made. factor_at name (meaning made) ≡ factor_at name (meaning form)) }
    ensures placed { IfOk result (λ made. (e : ℕ → ℚ) (row : Lin) → Agrees name point.now e → IsPlaced e row form → IsPlaced e row made) }
    ensures wide { (w : WideAt) → result ≡ Err (Wide w) → (e : ℕ → ℚ) (row : Lin) → Agrees name point.now e → IsPlaced e row form → IsWideAt (IsRowStep e name row) w }
{
    if key == name {
        return Ok(form);
    }
    let value = value_of(alloc, point, key)?;
    replaced(alloc, form, key, value)
}

/// The form with the values of all names but one put for them.
pub fn put(alloc: Global, row: &Lin, name: Name, point: &[Valuation]) -> Result<Lin, PointFail>
    requires row { IsNormal row.now }
    requires keys { AllByRecursion (λ p. p.key ≤ name) row.now.parts }
    requires point { AllByRecursion (λ at. IsNumber at.value) point.now }
    ensures normal { IfOk result (λ made. IsNormal made) }
    ensures values { IfOk result (λ made. (e : ℕ → ℚ) → Agrees name point.now e → value e one_ℚ (meaning made) ≡ value e one_ℚ (meaning row.now)) }
    ensures others { IfOk result (λ made. (t : ℕ) → t ≢ name → factor_at t (meaning made) ≡ zero_ℚ) }
    ensures factor { IfOk result (λ made. factor_at name (meaning made) ≡ factor_at name (meaning row.now)) }
    ensures placed { IfOk result (λ made. (e : ℕ → ℚ) → Agrees name point.now e → IsPlaced e row.now made) }
    ensures wide { (w : WideAt) → result ≡ Err (Wide w) → (e : ℕ → ℚ) → Agrees name point.now e → IsWideAt (IsRowStep e name row.now) w }
{
    let mut form = copied(alloc, row)?;
    for part in row.parts.as_slice() {
        form = put_one(alloc, form, part.key, name, point)?;
    }
    Ok(form)
}

/// The negation of a number within the limits.
fn negated(number: i128) -> i128
    requires { FitsLimits number }
    ensures { result ≡ neg_ℤ number }
{
    -number
}

/// The number with the other sign.
fn opposite(form: Lin) -> Lin
    requires { IsNumber form }
    ensures number { IsNumber result }
    ensures value { ratio result.constant result.den ≡ neg_ℚ (ratio form.constant form.den) }
{
    let Lin {
        den,
        parts,
        constant,
    } = form;
    Lin {
        den,
        parts,
        constant: negated(constant),
    }
}

/// The inverse of `factor / den`.
fn inverse_of(alloc: Global, den: i128, factor: i128) -> Lin
    requires den { pos 0 <ℤ den }
    requires den_within { FitsLimits den }
    requires factor { factor ≢ pos 0 }
    requires factor_within { FitsLimits factor }
    ensures number { IsNumber result }
    ensures value { ratio result.constant result.den ≡ inverse_ℚ (ratio factor den) }
{
    if factor > 0 {
        return fraction(alloc, den, factor);
    }
    fraction(alloc, negated(den), negated(factor))
}

/// The number at which `factor / den` times it and the form's constant make 0.
fn quotient(alloc: Global, form: &Lin, factor: i128) -> Result<Lin, PointFail>
    requires form { IsNormal form.now }
    requires factor { factor ≢ pos 0 }
    requires within { FitsLimits factor }
    ensures number { IfOk result (λ b. IsNumber b) }
    ensures value { IfOk result (λ b. ratio b.constant b.den ≡ neg_ℚ (ratio form.now.constant form.now.den) *ℚ inverse_ℚ (ratio factor form.now.den)) }
    ensures wide { (w : WideAt) → result ≡ Err (Wide w) → IsWideAt (IsDivision form.now (ratio factor form.now.den)) w }
{
    let inverse = inverse_of(alloc, form.den, factor);
    let rest = fraction(alloc, form.constant, form.den);
    let product = multiplied(alloc, rest, inverse)?;
    Ok(opposite(product))
}

/// The bound that a row gives for its largest name, where its other names have the values of a point.
pub fn bound(alloc: Global, row: &Lin, name: Name, point: &[Valuation]) -> Result<Lin, PointFail>
    requires row { IsNormal row.now }
    requires keys { AllByRecursion (λ p. p.key ≤ name) row.now.parts }
    requires factor { factor_at name (meaning row.now) ≢ zero_ℚ }
    requires point { AllByRecursion (λ at. IsNumber at.value) point.now }
    ensures number { IfOk result (λ b. IsNumber b) }
    ensures value { IfOk result (λ b. (e : ℕ → ℚ) → Agrees name point.now e → ratio b.constant b.den ≡ bound_at e name (meaning row.now)) }
    ensures wide { (w : WideAt) → result ≡ Err (Wide w) → (e : ℕ → ℚ) → Agrees name point.now e → IsWideAt (IsRowStep e name row.now) w }
{
    let form = put(alloc, row, name, point)?;
    match last(form.parts.as_slice()) {
        Some(part) => quotient(alloc, &form, part.factor),
        None => unreachable!(),
    }
}

/// Whether a form's constant is negative.
fn is_negative(form: &Lin) -> bool
    requires { IsNumber form.now }
    ensures { result ≡ is_positive (neg_ℚ (ratio form.now.constant form.now.den)) }
{
    form.constant < 0
}

/// Whether a number is below another, by their difference.
fn is_less(alloc: Global, left: &Lin, right: &Lin) -> Result<bool, PointFail>
    requires left { IsNumber left.now }
    requires right { IsNumber right.now }
    ensures below { IfOk result (λ b. b ≡ is_below (amount left.now) (amount right.now)) }
    ensures wide { (w : WideAt) → result ≡ Err (Wide w) → IsWideAt (IsDifference left.now right.now) w }
{
    let this = copied(alloc, left)?;
    let other = opposite(copied(alloc, right)?);
    let difference = added(alloc, this, other)?;
    Ok(is_negative(&difference))
}

/// The greater of two numbers, of which the first may be absent.
fn greater_of(alloc: Global, found: Option<Lin>, next: Lin) -> Result<Option<Lin>, PointFail>
    requires found { IsNumberOrNone found }
    requires next { IsNumber next }
    ensures greater { IfOk result (λ o. IsGreaterOf found next o) }
    ensures wide { (w : WideAt) → result ≡ Err (Wide w) → IsWideOf (λ old. IsDifference old next) found w }
{
    match found {
        Some(old) => {
            if is_less(alloc, &old, &next)? {
                Ok(Some(next))
            } else {
                Ok(Some(old))
            }
        }
        None => Ok(Some(next)),
    }
}

/// The lesser of two numbers, of which the first may be absent.
fn lesser_of(alloc: Global, found: Option<Lin>, next: Lin) -> Result<Option<Lin>, PointFail>
    requires found { IsNumberOrNone found }
    requires next { IsNumber next }
    ensures lesser { IfOk result (λ o. IsLesserOf found next o) }
    ensures wide { (w : WideAt) → result ≡ Err (Wide w) → IsWideOf (λ old. IsDifference next old) found w }
{
    match found {
        Some(old) => {
            if is_less(alloc, &next, &old)? {
                Ok(Some(next))
            } else {
                Ok(Some(old))
            }
        }
        None => Ok(Some(next)),
    }
}

/// The greatest bound that lower rows give for a name.
fn greatest_bound(
    alloc: Global,
    rows: &[Row],
    name: Name,
    point: &[Valuation],
) -> Result<Option<Lin>, PointFail>
    requires rows { AllByRecursion (IsLowerRow name) rows.now }
    requires point { AllByRecursion (λ at. IsNumber at.value) point.now }
    ensures greatest { IfOk result (λ o. IsGreatestBound rows.now name point.now o) }
    ensures wide { (w : WideAt) → result ≡ Err (Wide w) → (e : ℕ → ℚ) → Agrees name point.now e → IsWideAt (IsSideStep rows.now e name) w }
{
    let mut found: Option<Lin> = None;
    for row in rows {
        let next = bound(alloc, &row.lin, name, point)?;
        found = greater_of(alloc, found, next)?;
    }
    Ok(found)
}

/// The least bound that upper rows give for a name.
fn least_bound(
    alloc: Global,
    rows: &[Row],
    name: Name,
    point: &[Valuation],
) -> Result<Option<Lin>, PointFail>
    requires rows { AllByRecursion (IsUpperRow name) rows.now }
    requires point { AllByRecursion (λ at. IsNumber at.value) point.now }
    ensures least { IfOk result (λ o. IsLeastBound rows.now name point.now o) }
    ensures wide { (w : WideAt) → result ≡ Err (Wide w) → (e : ℕ → ℚ) → Agrees name point.now e → IsWideAt (IsSideStep rows.now e name) w }
{
    let mut found: Option<Lin> = None;
    for row in rows {
        let next = bound(alloc, &row.lin, name, point)?;
        found = lesser_of(alloc, found, next)?;
    }
    Ok(found)
}

/// The mean of two numbers.
fn mean(alloc: Global, low: Lin, high: Lin) -> Result<Lin, PointFail>
    requires low { IsNumber low }
    requires high { IsNumber high }
    ensures number { IfOk result (λ v. IsNumber v) }
    ensures mean { IfOk result (λ v. amount v ≡ half *ℚ (amount low +ℚ amount high)) }
    ensures wide { (w : WideAt) → result ≡ Err (Wide w) → IsWideAt (IsChoiceStep (Some low) (Some high)) w }
{
    let sum = added(alloc, low, high)?;
    multiplied(alloc, sum, fraction(alloc, 1, 2))
}

/// The number between two bounds: their mean, 1 beyond the only one, or 0.
fn choice(alloc: Global, lower: Option<Lin>, upper: Option<Lin>) -> Result<Lin, PointFail>
    requires lower { IsNumberOrNone lower }
    requires upper { IsNumberOrNone upper }
    ensures number { IfOk result (λ v. IsNumber v) }
    ensures chosen { IfOk result (λ v. IsChosen lower upper (amount v)) }
    ensures wide { (w : WideAt) → result ≡ Err (Wide w) → IsWideAt (IsChoiceStep lower upper) w }
{
    match lower {
        Some(low) => match upper {
            Some(high) => mean(alloc, low, high),
            None => added(alloc, low, one(alloc)),
        },
        None => match upper {
            Some(high) => added(alloc, high, opposite(one(alloc))),
            None => Ok(zero(alloc)),
        },
    }
}

/// The point of the stages, of which the last has the smallest name.
///
/// `Wide` comes only with a step that gives a name its value, where a product or a sum of that step leaves the limits.
pub fn point(alloc: Global, stages: Items<Stage>) -> Result<Items<Valuation>, PointFail>
    requires stages { AllByRecursion (IsStage 0) stages }
    requires falling { AreFalling stages }
    ensures chosen { IfOk result (λ made. IsPoint (HasStage stages) (value_in made)) }
    ensures wide { (w : WideAt) → result ≡ Err (Wide w) → IsPointWide (HasStage stages) w }
    ensures numbers { IfOk result (λ made. AllByRecursion (λ at. IsNumber at.value) made) }
{
    let mut stages = stages;
    let mut made: Items<Valuation> = Items::new(alloc);
    'stages: while let Some(stage) = stages.pop() {
        let lower = greatest_bound(alloc, stage.lowers.as_slice(), stage.name, made.as_slice())?;
        let upper = least_bound(alloc, stage.uppers.as_slice(), stage.name, made.as_slice())?;
        let value = choice(alloc, lower, upper)?;
        made.push(Valuation {
            name: stage.name,
            value,
        })?;
    }
    Ok(made)
}
