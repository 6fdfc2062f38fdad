//! Sums of earlier lines, and the endings that look at one difference.
ghost use Rattle.std.specs.Prelude.{◌≡◌, ◌↔◌, ℕ, ℤ, pos, ◌<◌, ◌<ℤ◌, ◌&&◌, true, false, [], ◌∷◌, List, length, slice_get, None, Some, IfOk, OnOk, IfErr, IfSome, IfNone, IsTrue};
ghost use Rattle.std.specs.List.{list_all, list_any, AllByRecursion};
ghost use Rattle.ae_math.specs.Forms.{plus as sum_of_forms, scale as multiple};
ghost use Rattle.ae_num.specs.Forms.{IsNormal, IfWide, first_wide};
ghost use Rattle.ae_core.specs.Sorts.{sort_of as sort_is, same_numeric as are_numeric};
ghost use Rattle.ae_rules.specs.Linear.{Linear, IsSame};
ghost use Rattle.ae_rules.specs.Lines.{Fact, AreNumbers, equal, at_most, below, states, AllowedLin, AllowedLeSum, AllowedLtSum};
ghost use Rattle.ae_math.specs.Fractions.{whole};
ghost use Rattle.ae_rules.specs.Derivations.{EndsConst, EndsZero};
ghost use Rattle.ae_core.specs.declared.proofs.EqLine.TheVariants.{EqLin, LeSum, LtSum};
ghost use Rattle.ae_core.specs.declared.proofs.Ending.TheVariants.{Const, Zero};
ghost use Rattle.ae_numeric.specs.Stated.{known, nought, scaled, added, added_up, sum_steps, sum_line_steps, line_steps, ending_steps, is_equation as equation};
ghost use Rattle.ae_numeric.specs.Computing.{IsSorted, AreDistinct, IsResult, IsFormOf, IsWideIn};
ghost use Rattle.ae_numeric.specs.Inner.Sums as spec;
ghost use Rattle.ae_numeric.specs.Inner.Denials as denial;

use crate::forms::difference;
use crate::keys::Keys;
use ae_core::problems::Signature;
use ae_core::proofs::{EqLine, Relation, Scaled};
use ae_core::sorts::{same_numeric, sort_of};
use ae_core::terms::{Sort, Term};
use ae_num::copies::same_form;
use ae_num::forms::{Lin, plus, scale, zero};
use ae_num::numbers::NumFail;
use ae_rules::facts::stated;
use std::alloc::{AllocError, Global};

/// Whether a line may stand in a sum for a line of this relation: an equation is a sum of equations alone.
fn may_join(sum: Relation, line: Relation) -> bool
    ensures { (left : Term) (right : Term) → result ≡ spec.may_join sum (record { relation = line; left = left; right = right }) }
{
    sum != Relation::Equal || line == Relation::Equal
}

/// Whether a term is of a sort that is known, and numeric.
fn is_of_sort(
    alloc: Global,
    signature: &Signature,
    sort: &Option<Sort>,
    term: &Term,
) -> Result<bool, AllocError>
    ensures { IfOk result (λ b. b ≡ are_numeric sort.now (sort_is signature.now term.now)) }
{
    let found = sort_of(alloc, signature, term)?;
    Ok(same_numeric(sort, &found))
}

/// Whether both terms are of a sort that is known, and numeric.
fn are_of_sort(
    alloc: Global,
    signature: &Signature,
    sort: &Option<Sort>,
    left: &Term,
    right: &Term,
) -> Result<bool, AllocError>
    ensures { IfOk result (λ b. b ≡ (are_numeric sort.now (sort_is signature.now left.now) && are_numeric sort.now (sort_is signature.now right.now))) }
{
    if !is_of_sort(alloc, signature, sort, left)? {
        return Ok(false);
    }
    is_of_sort(alloc, signature, sort, right)
}

/// Whether a part's number is that of a line that may stand in the sum, and whose terms are of the sort.
fn part_fits(
    alloc: Global,
    signature: &Signature,
    sort: &Option<Sort>,
    relation: Relation,
    earlier: &[EqLine],
    part: Scaled,
) -> Result<bool, AllocError>
    ensures { IfOk result (λ b. b ≡ spec.part_fits signature.now sort.now relation earlier.now part) }
{
    let Some(line) = earlier.get(part.line) else {
        return Ok(false);
    };
    let (found, left, right) = stated(line);
    if !may_join(relation, found) {
        return Ok(false);
    }
    are_of_sort(alloc, signature, sort, left, right)
}

/// Whether each part's number is that of a line that may stand in the sum, and whose terms are of the sort.
fn parts_fit(
    alloc: Global,
    signature: &Signature,
    sort: &Option<Sort>,
    relation: Relation,
    earlier: &[EqLine],
    parts: &[Scaled],
) -> Result<bool, AllocError>
    ensures { IfOk result (λ b. b ≡ list_all (spec.part_fits signature.now sort.now relation earlier.now) parts.now) }
{
    for part in parts {
        if !part_fits(alloc, signature, sort, relation, earlier, *part)? {
            return Ok(false);
        }
    }
    Ok(true)
}

/// Whether a line and the parts of its sum fit together: all terms are of one numeric sort.
fn sum_fits(
    alloc: Global,
    signature: &Signature,
    earlier: &[EqLine],
    relation: Relation,
    left: &Term,
    right: &Term,
    parts: &[Scaled],
) -> Result<bool, AllocError>
    ensures { IfOk result (λ b. b ≡ spec.sum_fits signature.now earlier.now (record { relation = relation; left = left.now; right = right.now }) parts.now) }
{
    let sort = sort_of(alloc, signature, left)?;
    if !is_of_sort(alloc, signature, &sort, right)? {
        return Ok(false);
    }
    parts_fit(alloc, signature, &sort, relation, earlier, parts)
}

/// The difference that is summed: left minus right for an equation, right minus left for an inequality.
fn difference_of<'a>(
    alloc: Global,
    keys: &mut Keys<'a>,
    relation: Relation,
    left: &'a Term,
    right: &'a Term,
) -> Result<Lin, NumFail>
    requires left { IsSorted left.now }
    requires right { IsSorted right.now }
    requires keys { AreDistinct keys.old }
    ensures result { IfOk result (λ form. IsResult (spec.difference_of relation left.now right.now) keys.old keys.new form) }
    ensures meaning { IfOk result (λ form. IsFormOf keys.new form (spec.meant relation left.now right.now)) }
    ensures kept { OnOk result ((k : ℕ) → k < length keys.old → slice_get keys.new k ≡ slice_get keys.old k) }
    ensures wide { IfErr result (λ fail. IsWideIn (spec.difference_of relation left.now right.now) keys.old fail) }
{
    match relation {
        Relation::Equal => difference(alloc, keys, left, right),
        Relation::AtMost => difference(alloc, keys, right, left),
        Relation::Below => difference(alloc, keys, right, left),
    }
}

/// A difference times a factor.
fn scaled_difference<'a>(
    alloc: Global,
    keys: &mut Keys<'a>,
    relation: Relation,
    left: &'a Term,
    right: &'a Term,
    times: i128,
) -> Result<Lin, NumFail>
    requires left { IsSorted left.now }
    requires right { IsSorted right.now }
    requires keys { AreDistinct keys.old }
    ensures result { IfOk result (λ form. IsResult (scaled times (pos 1) (spec.difference_of relation left.now right.now)) keys.old keys.new form) }
    ensures meaning { IfOk result (λ form. IsFormOf keys.new form (multiple (whole times) (spec.meant relation left.now right.now))) }
    ensures kept { OnOk result ((k : ℕ) → k < length keys.old → slice_get keys.new k ≡ slice_get keys.old k) }
    ensures wide { IfErr result (λ fail. IsWideIn (scaled times (pos 1) (spec.difference_of relation left.now right.now)) keys.old fail) }
{
    let form = difference_of(alloc, keys, relation, left, right)?;
    scale(alloc, times, 1, &form)
}

/// A sum with one more line's difference times the part's factor.
fn with_line<'a>(
    alloc: Global,
    keys: &mut Keys<'a>,
    relation: Relation,
    sum: &Lin,
    line: &'a EqLine,
    part: Scaled,
) -> Result<Lin, NumFail>
    requires left { IsSorted (states line.now).left }
    requires right { IsSorted (states line.now).right }
    requires keys { AreDistinct keys.old }
    requires sum { IsNormal sum.now }
    ensures result { IfOk result (λ form. IsResult (added (known sum.now) (scaled part.factor (pos 1) (spec.summed relation (states line.now)))) keys.old keys.new form) }
    ensures meaning { IfOk result (λ form. (a : Linear) → IsFormOf keys.old sum.now a → IsFormOf keys.new form (sum_of_forms a (multiple (whole part.factor) (spec.meant relation (states line.now).left (states line.now).right)))) }
    ensures distinct { OnOk result (AreDistinct keys.new) }
    ensures normal { IfOk result (λ form. IsNormal form) }
    ensures kept { OnOk result ((k : ℕ) → k < length keys.old → slice_get keys.new k ≡ slice_get keys.old k) }
    ensures wide { IfErr result (λ fail. IsWideIn (added (known sum.now) (scaled part.factor (pos 1) (spec.summed relation (states line.now)))) keys.old fail) }
{
    let (_, left, right) = stated(line);
    let form = scaled_difference(alloc, keys, relation, left, right, part.factor)?;
    plus(alloc, sum, &form)
}

/// The line that a part names.
fn named_line<'a>(earlier: &'a [EqLine], part: Scaled) -> &'a EqLine
    requires { part.line < length earlier.now }
    ensures { slice_get earlier.now part.line ≡ Some result.now }
{
    &earlier[part.line]
}

/// The sum of the differences of the lines that the parts name, each times its factor.
fn sum_of_parts<'a>(
    alloc: Global,
    keys: &mut Keys<'a>,
    relation: Relation,
    earlier: &'a [EqLine],
    parts: &[Scaled],
) -> Result<Lin, NumFail>
    requires parts { AllByRecursion (spec.IsSummand earlier.now) parts.now }
    requires keys { AreDistinct keys.old }
    ensures result { IfOk result (λ form. IsResult (added_up (spec.summed relation) (known nought) (spec.facts_of earlier.now parts.now)) keys.old keys.new form) }
    ensures meaning { IfOk result (λ form. IsFormOf keys.new form (spec.meant_sum relation (spec.facts_of earlier.now parts.now))) }
    ensures kept { OnOk result ((k : ℕ) → k < length keys.old → slice_get keys.new k ≡ slice_get keys.old k) }
    ensures wide { IfErr result (λ fail. IsWideIn (added_up (spec.summed relation) (known nought) (spec.facts_of earlier.now parts.now)) keys.old fail) }
{
    let mut sum = zero(alloc);
    for part in parts {
        let line = named_line(earlier, *part);
        sum = with_line(alloc, keys, relation, &sum, line, *part)?;
    }
    Ok(sum)
}

/// Whether a difference times a factor is the sum of the differences of the lines that the parts name.
fn balances<'a>(
    alloc: Global,
    earlier: &'a [EqLine],
    relation: Relation,
    left: &'a Term,
    right: &'a Term,
    times: i128,
    parts: &[Scaled],
) -> Result<bool, NumFail>
    requires left { IsSorted left.now }
    requires right { IsSorted right.now }
    requires parts { AllByRecursion (spec.IsSummand earlier.now) parts.now }
    ensures exact { IfOk result (λ b. IsTrue b ↔ IsSame (multiple (whole times) (spec.meant relation left.now right.now)) (spec.meant_sum relation (spec.facts_of earlier.now parts.now))) }
    ensures fits { OnOk result (first_wide (sum_steps (spec.summed relation) times (record { relation = relation; left = left.now; right = right.now }) (spec.facts_of earlier.now parts.now)) ≡ None) }
    ensures wide { IfErr result (λ fail. IfWide fail (λ w. first_wide (sum_steps (spec.summed relation) times (record { relation = relation; left = left.now; right = right.now }) (spec.facts_of earlier.now parts.now)) ≡ Some w)) }
{
    let mut keys = Keys::new(alloc);
    let own = scaled_difference(alloc, &mut keys, relation, left, right, times)?;
    let sum = sum_of_parts(alloc, &mut keys, relation, earlier, parts)?;
    Ok(same_form(&own, &sum))
}

/// Whether a line is the sum of what its parts name, each times its factor: its numbers are those of lines that may
/// stand in the sum, all terms are of one numeric sort, and the line's difference times `times` is the sum.
fn is_sum(
    alloc: Global,
    signature: &Signature,
    earlier: &[EqLine],
    relation: Relation,
    left: &Term,
    right: &Term,
    times: i128,
    parts: &[Scaled],
) -> Result<bool, NumFail>
    ensures exact { IfOk result (λ b. IsTrue b ↔ spec.IsSum signature.now earlier.now (record { relation = relation; left = left.now; right = right.now }) times parts.now) }
    ensures fits { OnOk result (first_wide (sum_line_steps signature.now earlier.now (spec.may_join relation) (spec.summed relation) times (record { relation = relation; left = left.now; right = right.now }) parts.now) ≡ None) }
    ensures wide { IfErr result (λ fail. IfWide fail (λ w. first_wide (sum_line_steps signature.now earlier.now (spec.may_join relation) (spec.summed relation) times (record { relation = relation; left = left.now; right = right.now }) parts.now) ≡ Some w)) }
{
    if !sum_fits(alloc, signature, earlier, relation, left, right, parts)? {
        return Ok(false);
    }
    balances(alloc, earlier, relation, left, right, times, parts)
}

/// Whether a part's factor is one that its line may have: any for an equation, a positive one for an inequality.
fn may_count(earlier: &[EqLine], part: Scaled) -> bool
    ensures { result ≡ spec.may_count earlier.now part }
{
    match earlier.get(part.line) {
        None => false,
        Some(line) => {
            let (relation, _, _) = stated(line);
            relation == Relation::Equal || 0 < part.factor
        }
    }
}

/// Whether each part's factor is one that its line may have.
fn all_count(earlier: &[EqLine], parts: &[Scaled]) -> bool
    ensures { result ≡ list_all (spec.may_count earlier.now) parts.now }
{
    for part in parts {
        if !may_count(earlier, *part) {
            return false;
        }
    }
    true
}

/// Whether a sum's factors are positive, those of equations left out.
fn counts(earlier: &[EqLine], times: i128, parts: &[Scaled]) -> bool
    ensures { IsTrue result ↔ ((pos 0 <ℤ times) × (list_all (spec.may_count earlier.now) parts.now ≡ true)) }
{
    0 < times && all_count(earlier, parts)
}

/// Whether a part names a strict inequality.
fn is_strict(earlier: &[EqLine], part: Scaled) -> bool
    ensures { result ≡ spec.is_strict_part earlier.now part }
{
    match earlier.get(part.line) {
        None => false,
        Some(line) => {
            let (relation, _, _) = stated(line);
            relation == Relation::Below
        }
    }
}

/// Whether some part names a strict inequality.
fn some_strict(earlier: &[EqLine], parts: &[Scaled]) -> bool
    ensures { result ≡ list_any (spec.is_strict_part earlier.now) parts.now }
{
    for part in parts {
        if is_strict(earlier, *part) {
            return true;
        }
    }
    false
}

/// Whether an equation is a sum of earlier ones, each times its factor, where `times` isn't 0.
pub fn lin_allowed(
    alloc: Global,
    signature: &Signature,
    earlier: &[EqLine],
    left: &Term,
    right: &Term,
    times: i128,
    parts: &[Scaled],
) -> Result<bool, NumFail>
    ensures exact { IfOk result (λ b. IsTrue b ↔ AllowedLin signature.now earlier.now left.now right.now times parts.now) }
    ensures fits { OnOk result (first_wide (line_steps signature.now earlier.now (EqLin left.now right.now times parts.now)) ≡ None) }
    ensures wide { IfErr result (λ fail. IfWide fail (λ w. first_wide (line_steps signature.now earlier.now (EqLin left.now right.now times parts.now)) ≡ Some w)) }
{
    let relation = Relation::Equal;
    if !is_sum(
        alloc, signature, earlier, relation, left, right, times, parts,
    )? {
        return Ok(false);
    }
    Ok(times != 0)
}

/// Whether an inequality is a sum of earlier lines, each times its factor, where `times` and the factors of inequalities
/// are positive.
pub fn le_sum_allowed(
    alloc: Global,
    signature: &Signature,
    earlier: &[EqLine],
    left: &Term,
    right: &Term,
    times: i128,
    parts: &[Scaled],
) -> Result<bool, NumFail>
    ensures exact { IfOk result (λ b. IsTrue b ↔ AllowedLeSum signature.now earlier.now left.now right.now times parts.now) }
    ensures fits { OnOk result (first_wide (line_steps signature.now earlier.now (LeSum left.now right.now times parts.now)) ≡ None) }
    ensures wide { IfErr result (λ fail. IfWide fail (λ w. first_wide (line_steps signature.now earlier.now (LeSum left.now right.now times parts.now)) ≡ Some w)) }
{
    let relation = Relation::AtMost;
    if !is_sum(
        alloc, signature, earlier, relation, left, right, times, parts,
    )? {
        return Ok(false);
    }
    Ok(counts(earlier, times, parts))
}

/// Whether a strict inequality is a sum of earlier lines, each times its factor, where `times` and the factors of
/// inequalities are positive and some line is strict.
pub fn lt_sum_allowed(
    alloc: Global,
    signature: &Signature,
    earlier: &[EqLine],
    left: &Term,
    right: &Term,
    times: i128,
    parts: &[Scaled],
) -> Result<bool, NumFail>
    ensures exact { IfOk result (λ b. IsTrue b ↔ AllowedLtSum signature.now earlier.now left.now right.now times parts.now) }
    ensures fits { OnOk result (first_wide (line_steps signature.now earlier.now (LtSum left.now right.now times parts.now)) ≡ None) }
    ensures wide { IfErr result (λ fail. IfWide fail (λ w. first_wide (line_steps signature.now earlier.now (LtSum left.now right.now times parts.now)) ≡ Some w)) }
{
    let relation = Relation::Below;
    if !is_sum(
        alloc, signature, earlier, relation, left, right, times, parts,
    )? {
        return Ok(false);
    }
    Ok(counts(earlier, times, parts) && some_strict(earlier, parts))
}

/// Whether a relation denies that its gap is this number, over a positive denominator.
fn denies(relation: Relation, number: i128) -> bool
    ensures { result ≡ denial.denies relation number }
{
    match relation {
        Relation::Equal => number != 0,
        Relation::AtMost => number < 0,
        Relation::Below => number <= 0,
    }
}

/// Whether a form is a number that a relation denies.
fn is_denied(relation: Relation, form: &Lin) -> bool
    ensures { IsTrue result ↔ ((form.now.parts ≡ []) × (denial.denies relation form.now.constant ≡ true)) }
{
    form.parts.is_empty() && denies(relation, form.constant)
}

/// Whether the terms of a relation differ by a number that it denies.
fn number_denied(
    alloc: Global,
    relation: Relation,
    left: &Term,
    right: &Term,
) -> Result<bool, NumFail>
    requires left { IsSorted left.now }
    requires right { IsSorted right.now }
    ensures exact { IfOk result (λ b. IsTrue b ↔ denial.IsDenied (record { relation = relation; left = left.now; right = right.now })) }
    ensures fits { OnOk result (first_wide (spec.difference_of relation left.now right.now []).steps ≡ None) }
    ensures wide { IfErr result (λ fail. IsWideIn (spec.difference_of relation left.now right.now) [] fail) }
{
    let mut keys = Keys::new(alloc);
    let form = difference_of(alloc, &mut keys, relation, left, right)?;
    Ok(is_denied(relation, &form))
}

/// Whether a line's terms are of one numeric sort and differ by a number that it denies.
fn line_denied(alloc: Global, signature: &Signature, line: &EqLine) -> Result<bool, NumFail>
    ensures exact { IfOk result (λ b. IsTrue b ↔ (AreNumbers signature.now (states line.now) × denial.IsDenied (states line.now))) }
    ensures fits { OnOk result (first_wide (denial.denied_steps signature.now (states line.now)) ≡ None) }
    ensures wide { IfErr result (λ fail. IfWide fail (λ w. first_wide (denial.denied_steps signature.now (states line.now)) ≡ Some w)) }
{
    let (relation, left, right) = stated(line);
    let sort = sort_of(alloc, signature, left)?;
    if !is_of_sort(alloc, signature, &sort, right)? {
        return Ok(false);
    }
    number_denied(alloc, relation, left, right)
}

/// Whether a line is an equation.
fn is_equation(line: &EqLine) -> bool
    ensures { result ≡ equation (states line.now) }
{
    let (relation, _, _) = stated(line);
    relation == Relation::Equal
}

/// The line of this number.
fn line_at(lines: &[EqLine], line: usize) -> Option<&EqLine>
    ensures some { IfSome result (λ found. slice_get lines.now line ≡ Some found.now) }
    ensures none { IfNone result (slice_get lines.now line ≡ None) }
{
    lines.get(line)
}

/// Whether a line equates two terms of one numeric sort that differ by a number other than 0.
pub fn const_ends(
    alloc: Global,
    signature: &Signature,
    lines: &[EqLine],
    line: usize,
) -> Result<bool, NumFail>
    ensures exact { IfOk result (λ b. IsTrue b ↔ EndsConst signature.now lines.now line) }
    ensures fits { OnOk result (first_wide (ending_steps signature.now lines.now (Const line)) ≡ None) }
    ensures wide { IfErr result (λ fail. IfWide fail (λ w. first_wide (ending_steps signature.now lines.now (Const line)) ≡ Some w)) }
{
    match line_at(lines, line) {
        None => Ok(false),
        Some(found) => {
            if !is_equation(found) {
                return Ok(false);
            }
            line_denied(alloc, signature, found)
        }
    }
}

/// Whether a line is an inequality of terms of one numeric sort that differ by a number, and is false.
pub fn zero_ends(
    alloc: Global,
    signature: &Signature,
    lines: &[EqLine],
    line: usize,
) -> Result<bool, NumFail>
    ensures exact { IfOk result (λ b. IsTrue b ↔ EndsZero signature.now lines.now line) }
    ensures fits { OnOk result (first_wide (ending_steps signature.now lines.now (Zero line)) ≡ None) }
    ensures wide { IfErr result (λ fail. IfWide fail (λ w. first_wide (ending_steps signature.now lines.now (Zero line)) ≡ Some w)) }
{
    match line_at(lines, line) {
        None => Ok(false),
        Some(found) => {
            if is_equation(found) {
                return Ok(false);
            }
            line_denied(alloc, signature, found)
        }
    }
}
