//! Rounding of an inequality of integers, and equations of integers without a solution.
ghost use Rattle.std.specs.Prelude.{◌≡◌, ◌≢◌, ◌↔◌, ◌<◌, ◌^◌, ◌<ℤ◌, ◌≤ℤ◌, [], pos, map, unsigned_abs, None, Some, IfOk, OnOk, IfErr, IsTrue};
ghost use Rattle.std.specs.List.{AllByRecursion};
ghost use Rattle.std.specs.Int.{◌∣◌};
ghost use Rattle.ae_math.specs.Forms.{minus, plus as sum_of_forms};
ghost use Rattle.ae_num.specs.Forms.{meaning, SameMeaning, IsNormal, IsCommonDivisor, first_wide, IfWide, plus_steps, sum_of};
ghost use Rattle.ae_rules.specs.Linear.{form};
ghost use Rattle.ae_core.specs.Sorts as sorts;
ghost use Rattle.ae_base.specs.Options as sorts_options;
ghost use Rattle.ae_rules.specs.Lines.{AllowedRound, IsFloor, at_most, equal, gap};
ghost use Rattle.ae_rules.specs.Derivations.{EndsGcd, HasNoSolution};
ghost use Rattle.ae_core.specs.declared.proofs.EqLine.TheVariants.{LeRound};
ghost use Rattle.ae_core.specs.declared.proofs.Ending.TheVariants.{Gcd};
ghost use Rattle.ae_numeric.specs.Stated.{computed, subtracted, taken_down, line_steps, ending_steps, round_steps, of_one_sort, forward};
ghost use Rattle.ae_numeric.specs.Stated as spec;
ghost use Rattle.ae_numeric.specs.Computing.{IsSorted, AreDistinct, IsResult, IsFormOf, IsWideIn};
ghost use Rattle.ae_numeric.specs.Inner.Rounding.{IsRounded, lowered, IsQuotient, IsApart, factor_sizes, times_part};

use crate::forms::difference;
use crate::keys::Keys;
use ae_core::problems::Signature;
use ae_core::proofs::{EqLine, Relation};
use ae_core::sorts::{is_sort, same_numeric, sort_of};
use ae_core::terms::{Sort, Term};
use ae_num::forms::{Lin, Part, fraction, plus};
use ae_num::numbers::{NumFail, gcd};
use ae_rules::facts::stated;
use std::alloc::{AllocError, Global};

/// The greatest common divisor of the factors; 0 where there are none.
fn common_factor(parts: &[Part]) -> i128
    requires { AllByRecursion (λ n. n < 2 ^ 127) (factor_sizes parts.now) }
    ensures common { IsCommonDivisor (factor_sizes parts.now) (unsigned_abs result) }
    ensures sign { pos 0 ≤ℤ result }
{
    let mut divisor = 0;
    for part in parts {
        divisor = gcd(divisor, part.factor);
    }
    divisor
}

/// Whether a part is another one with its factor multiplied.
fn is_multiple(part: Part, times: i128, of: Part) -> bool
    ensures { IsTrue result ↔ part ≡ times_part times of }
{
    match of.factor.checked_mul(times) {
        Some(factor) => part.key == of.key && part.factor == factor,
        None => false,
    }
}

/// Whether the parts are the others with their factors multiplied, one by one.
fn are_multiples(parts: &[Part], times: i128, of: &[Part]) -> bool
    ensures { IsTrue result ↔ parts.now ≡ map (times_part times) of.now }
{
    if parts.len() != of.len() {
        return false;
    }
    for i in 0..parts.len() {
        if !is_multiple(parts[i], times, of[i]) {
            return false;
        }
    }
    true
}

/// The quotient of two numbers, rounded down.
#[tactic(auto, using(crate::proofs::FloorLaws::floor_quotient))]
fn floor(number: i128, divisor: i128) -> i128
    requires { pos 0 <ℤ divisor }
    ensures { IsFloor number (unsigned_abs divisor) result }
{
    number.div_euclid(divisor)
}

/// Whether a number is the quotient of two, rounded down.
fn is_floor(number: i128, divisor: i128, quotient: i128) -> bool
    requires { pos 0 <ℤ divisor }
    ensures { IsTrue result ↔ IsFloor number (unsigned_abs divisor) quotient }
{
    floor(number, divisor) == quotient
}

/// Whether a number divides another one.
fn is_divisor(divisor: i128, number: i128) -> bool
    requires { pos 0 <ℤ divisor }
    ensures { IsTrue result ↔ (unsigned_abs divisor ∣ unsigned_abs number) }
{
    number.unsigned_abs() % divisor.unsigned_abs() == 0
}

/// Whether a form has an opaque part, and whole numbers alone.
fn is_whole_sum(of: &Lin) -> bool
    ensures { IsTrue result ↔ ((of.now.den ≡ pos 1) × (of.now.parts ≢ [])) }
{
    of.den == 1 && !of.parts.as_slice().is_empty()
}

/// Whether a form is another one divided by the common divisor of its factors, and rounded down.
fn is_quotient(of: &Lin, by: &Lin) -> bool
    requires of { IsNormal of.now }
    requires by { IsNormal by.now }
    ensures { IsTrue result ↔ IsQuotient of.now by.now }
{
    if !is_whole_sum(of) || by.den != 1 {
        return false;
    }
    let divisor = common_factor(of.parts.as_slice());
    are_multiples(of.parts.as_slice(), divisor, by.parts.as_slice())
        && is_floor(of.constant, divisor, by.constant)
}

/// Whether the common divisor of a form's factors doesn't divide its constant.
fn is_apart(of: &Lin) -> bool
    requires { IsNormal of.now }
    ensures { IsTrue result ↔ IsApart of.now }
{
    if !is_whole_sum(of) {
        return false;
    }
    !is_divisor(common_factor(of.parts.as_slice()), of.constant)
}

/// The form -1.
fn minus_one(alloc: Global) -> Lin
    ensures form { result ≡ spec.minus_one }
    ensures normal { IsNormal result }
{
    fraction(alloc, -1, 1)
}

/// A form less 1.
fn less_one(alloc: Global, of: &Lin) -> Result<Lin, NumFail>
    requires { IsNormal of.now }
    ensures form { IfOk result (λ form. form ≡ sum_of of.now spec.minus_one) }
    ensures meaning { IfOk result (λ form. SameMeaning (meaning form) (sum_of_forms (meaning of.now) (meaning spec.minus_one))) }
    ensures normal { IfOk result (λ form. IsNormal form) }
    ensures fits { OnOk result (first_wide (plus_steps of.now spec.minus_one) ≡ None) }
    ensures wide { IfErr result (λ fail. IfWide fail (λ w. first_wide (plus_steps of.now spec.minus_one) ≡ Some w)) }
{
    plus(alloc, of, &minus_one(alloc))
}

/// The right side of an inequality minus its left side, less 1 where it is strict.
fn gap_of<'a>(
    alloc: Global,
    keys: &mut Keys<'a>,
    relation: Relation,
    left: &'a Term,
    right: &'a Term,
) -> Result<Lin, NumFail>
    requires left { IsSorted left.now }
    requires right { IsSorted right.now }
    requires keys { AreDistinct keys.old }
    ensures result { IfOk result (λ form. IsResult (taken_down relation (subtracted (computed right.now) (computed left.now))) keys.old keys.new form) }
    ensures meaning { IfOk result (λ f. IsFormOf keys.new f (lowered relation (minus (form right.now) (form left.now)))) }
    ensures wide { IfErr result (λ fail. IsWideIn (taken_down relation (subtracted (computed right.now) (computed left.now))) keys.old fail) }
{
    let gap = difference(alloc, keys, right, left)?;
    match relation {
        Relation::Below => less_one(alloc, &gap),
        _ => Ok(gap),
    }
}

/// Whether the inequality `left` at most `right` is the one of `low` and `high`, of integers, divided by the common
/// divisor of its factors and rounded.
fn rounds(
    alloc: Global,
    relation: Relation,
    low: &Term,
    high: &Term,
    left: &Term,
    right: &Term,
) -> Result<bool, NumFail>
    requires low { IsSorted low.now }
    requires high { IsSorted high.now }
    requires left { IsSorted left.now }
    requires right { IsSorted right.now }
    ensures exact { IfOk result (λ b. IsTrue b ↔ IsRounded relation (minus (form high.now) (form low.now)) (minus (form right.now) (form left.now))) }
    ensures fits { OnOk result (first_wide (round_steps (record { relation = relation; left = low.now; right = high.now }) (at_most left.now right.now)) ≡ None) }
    ensures wide { IfErr result (λ fail. IfWide fail (λ w. first_wide (round_steps (record { relation = relation; left = low.now; right = high.now }) (at_most left.now right.now)) ≡ Some w)) }
{
    let mut keys = Keys::new(alloc);
    let gap = gap_of(alloc, &mut keys, relation, low, high)?;
    let rounded = difference(alloc, &mut keys, right, left)?;
    Ok(is_quotient(&gap, &rounded))
}

/// Whether an equation of integers has no solution.
fn is_unsolvable(alloc: Global, left: &Term, right: &Term) -> Result<bool, NumFail>
    requires left { IsSorted left.now }
    requires right { IsSorted right.now }
    ensures exact { IfOk result (λ b. IsTrue b ↔ HasNoSolution (gap (equal left.now right.now))) }
    ensures fits { OnOk result (first_wide (forward (equal left.now right.now) []).steps ≡ None) }
    ensures wide { IfErr result (λ fail. IfWide fail (λ w. first_wide (forward (equal left.now right.now) []).steps ≡ Some w)) }
{
    let mut keys = Keys::new(alloc);
    let gap = difference(alloc, &mut keys, left, right)?;
    Ok(is_apart(&gap))
}

/// The numeric sort of two terms, where they have one.
fn numeric_sort(
    alloc: Global,
    signature: &Signature,
    left: &Term,
    right: &Term,
) -> Result<Option<Sort>, AllocError>
    ensures { IfOk result (λ sort. sort ≡ sorts_options.only (sorts.same_numeric (sorts.sort_of signature.now left.now) (sorts.sort_of signature.now right.now)) (sorts.sort_of signature.now left.now)) }
{
    let sort = sort_of(alloc, signature, left)?;
    let other = sort_of(alloc, signature, right)?;
    if same_numeric(&sort, &other) {
        Ok(sort)
    } else {
        Ok(None)
    }
}

/// The numeric sort of the terms of two facts, where they have one.
fn shared_sort(
    alloc: Global,
    signature: &Signature,
    left: &Term,
    right: &Term,
    low: &Term,
    high: &Term,
) -> Result<Option<Sort>, AllocError>
    ensures { IfOk result (λ sort. sort ≡ sorts_options.only (of_one_sort signature.now (at_most left.now right.now) (at_most low.now high.now)) (sorts.sort_of signature.now left.now)) }
{
    let sort = numeric_sort(alloc, signature, left, right)?;
    let from = sort_of(alloc, signature, low)?;
    let to = sort_of(alloc, signature, high)?;
    if same_numeric(&sort, &from) && same_numeric(&sort, &to) {
        Ok(sort)
    } else {
        Ok(None)
    }
}

/// Whether a line that rounds the inequality of an earlier one is allowed; the products and sums of both differences
/// are stated where all terms are of one numeric sort.
pub fn round_allowed(
    alloc: Global,
    signature: &Signature,
    earlier: &[EqLine],
    left: &Term,
    right: &Term,
    line: usize,
) -> Result<bool, NumFail>
    ensures exact { IfOk result (λ b. IsTrue b ↔ AllowedRound signature.now earlier.now left.now right.now line) }
    ensures fits { OnOk result (first_wide (line_steps signature.now earlier.now (LeRound left.now right.now line)) ≡ None) }
    ensures wide { IfErr result (λ fail. IfWide fail (λ w. first_wide (line_steps signature.now earlier.now (LeRound left.now right.now line)) ≡ Some w)) }
{
    let Some(found) = earlier.get(line) else {
        return Ok(false);
    };
    let (relation, low, high) = stated(found);
    if relation == Relation::Equal {
        return Ok(false);
    }
    let Some(sort) = shared_sort(alloc, signature, left, right, low, high)? else {
        return Ok(false);
    };
    let fits = rounds(alloc, relation, low, high, left, right)?;
    Ok(fits && is_sort(&sort, &Sort::Int))
}

/// Whether a line's equation is one of integers without a solution; the products and sums of its difference are
/// stated where its terms are of one numeric sort.
pub fn gcd_ends(
    alloc: Global,
    signature: &Signature,
    lines: &[EqLine],
    line: usize,
) -> Result<bool, NumFail>
    ensures exact { IfOk result (λ b. IsTrue b ↔ EndsGcd signature.now lines.now line) }
    ensures fits { OnOk result (first_wide (ending_steps signature.now lines.now (Gcd line)) ≡ None) }
    ensures wide { IfErr result (λ fail. IfWide fail (λ w. first_wide (ending_steps signature.now lines.now (Gcd line)) ≡ Some w)) }
{
    let Some(found) = lines.get(line) else {
        return Ok(false);
    };
    let (relation, left, right) = stated(found);
    if relation != Relation::Equal {
        return Ok(false);
    }
    let Some(sort) = numeric_sort(alloc, signature, left, right)? else {
        return Ok(false);
    };
    let unsolvable = is_unsolvable(alloc, left, right)?;
    Ok(unsolvable && is_sort(&sort, &Sort::Int))
}
