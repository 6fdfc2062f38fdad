//! Elimination of names, the largest first.

ghost use Rattle.std.specs.Prelude.{◌≡◌, ◌≤◌, ◌⊎◌, ◌||◌, true, ℕ, suc, max, IfOk, OnOk, IfSome, IfNone, Some, IsSome, pos, ◌<ℤ◌, ◌≤ℤ◌, ◌≢◌, ◌++◌, ◌∷◌, [], false, List};
ghost use Rattle.std.specs.List.{AllByRecursion};
ghost use Rattle.ae_math.specs.Forms.{Form};
ghost use Rattle.ae_num.specs.Forms.{meaning, SameMeaning, IsNormal, factor_of};
ghost use Rattle.ae_num.specs.Limits.{FitsLimits};
ghost use Rattle.ae_rows.specs.Rows.{IsCovered, IsClosed, HasPositiveNumbers, combination};
ghost use Rattle.ae_ineq.specs.declared.elimination.Verdict.TheVariants.{Open, Tight, Contradiction};
ghost use Rattle.ae_ineq.specs.declared.elimination.Side.TheVariants.{Lower, Upper, Rest};
ghost use Rattle.ae_ineq.specs.Inner.Points.{AreFalling};
ghost use Rattle.ae_ineq.specs.Inner.Sets.{IsRow, IsGoodRow, IsLowerRow, IsUpperRow, IsRestRow, HasForm, HasDirection, HasMultiple, AreAmong, AreCovered, reach, HasAny, HasPart, IsStage, reach_of, name_reach};
ghost use Rattle.ae_ineq.specs.Inner.Derived.{IsDerived, IsJudged};
ghost use Rattle.ae_ineq.specs.declared.solving.Inequality.{Inequality};

use crate::combining::combine;
use crate::rows::{Row, has_direction, last, row_of};
use ae_num::forms::{Lin, Name, Part};
use ae_num::numbers::NumFail;
use sqlite_items::Items;
use std::alloc::{AllocError, Global};

/// A name with the rows of which it is the largest name, by the sign of its factor.
#[derive(Debug, Drop)]
pub struct Stage {
    pub name: Name,
    pub lowers: Items<Row>,
    pub uppers: Items<Row>,
}

/// What combinations came to.
#[derive(Clone, Copy, Debug, PartialEq, Eq)]
pub enum Verdict {
    /// Each is covered.
    Open,
    /// One is zero and allows equality; each other one is covered or such a one.
    Tight,
    /// One can't hold.
    Contradiction,
}

/// The greater of a name and that of a part.
fn greater(found: Option<Name>, part: Option<Part>) -> Option<Name>
    ensures { name_reach result ≡ max (name_reach found) (reach_of part) }
{
    match part {
        Some(part) => match found {
            Some(name) => {
                if name < part.key {
                    Some(part.key)
                } else {
                    Some(name)
                }
            }
            None => Some(part.key),
        },
        None => found,
    }
}

/// The greatest largest name of the rows.
pub fn greatest(rows: &[Row]) -> Option<Name>
    ensures some { IfSome result (λ name. reach rows.now ≡ suc name) }
    ensures none { IfNone result (reach rows.now ≡ 0) }
{
    let mut found: Option<Name> = None;
    for row in rows {
        found = greater(found, last(row.lin.parts.as_slice()));
    }
    found
}

/// Where a row belongs.
#[derive(Clone, Copy)]
enum Side {
    Lower,
    Upper,
    Rest,
}

/// Where a row with this last part belongs.
fn side_of(name: Name, part: Option<Part>) -> Side
    ensures lower { result ≡ Lower → IfSome part (λ p. (p.key ≡ name) × (pos 0 <ℤ p.factor)) × IsSome part }
    ensures upper { result ≡ Upper → IfSome part (λ p. (p.key ≡ name) × (p.factor ≤ℤ pos 0)) × IsSome part }
    ensures rest { result ≡ Rest → IfSome part (λ p. p.key ≢ name) }
{
    match part {
        Some(part) => {
            if part.key != name {
                return Side::Rest;
            }
            if part.factor > 0 {
                Side::Lower
            } else {
                Side::Upper
            }
        }
        None => Side::Rest,
    }
}

/// Puts each row to the lower or the upper ones, where its largest name is the given one, or to the rest.
pub fn split(alloc: Global, name: Name, rows: Items<Row>) -> Result<(Stage, Items<Row>), AllocError>
    requires good { AllByRecursion IsGoodRow rows }
    requires reach { reach rows ≡ suc name }
    ensures name { IfOk result (λ parts. parts.0.name ≡ name) }
    ensures lower { IfOk result (λ parts. AllByRecursion (IsLowerRow name) parts.0.lowers) }
    ensures upper { IfOk result (λ parts. AllByRecursion (IsUpperRow name) parts.0.uppers) }
    ensures rest { IfOk result (λ parts. AllByRecursion (IsRestRow name) parts.1) }
    ensures all { IfOk result (λ parts. (f : Form ℕ) → HasForm rows f → HasPart parts.0.lowers parts.0.uppers parts.1 f) }
    ensures derived_lower { IfOk result (λ parts. (given : List Inequality) → AllByRecursion (IsDerived given) rows → AllByRecursion (IsDerived given) parts.0.lowers) }
    ensures derived_upper { IfOk result (λ parts. (given : List Inequality) → AllByRecursion (IsDerived given) rows → AllByRecursion (IsDerived given) parts.0.uppers) }
    ensures derived_rest { IfOk result (λ parts. (given : List Inequality) → AllByRecursion (IsDerived given) rows → AllByRecursion (IsDerived given) parts.1) }
{
    let mut rows = rows;
    let mut lowers = Items::new(alloc);
    let mut uppers = Items::new(alloc);
    let mut rest = Items::new(alloc);
    'rows: while let Some(row) = rows.pop() {
        match side_of(name, last(row.lin.parts.as_slice())) {
            Side::Lower => {
                lowers.push(row)?;
            }
            Side::Upper => {
                uppers.push(row)?;
            }
            Side::Rest => {
                rest.push(row)?;
            }
        }
    }
    Ok((
        Stage {
            name,
            lowers,
            uppers,
        },
        rest,
    ))
}

/// Adds a row where it is no positive multiple of one that is there.
pub fn add(rest: &mut Items<Row>, row: Row) -> Result<(), AllocError>
    requires row { IsRow row }
    requires rest { AllByRecursion IsRow rest.old }
    ensures added { OnOk result (((rest.new ≡ rest.old) × HasDirection rest.old row.direction) ⊎ (rest.new ≡ rest.old ++ row ∷ [])) }
    ensures new { OnOk result (rest.new ≡ rest.old ⊎ ¬ HasMultiple rest.old (meaning row.lin)) }
{
    if !has_direction(rest.as_slice(), &row.direction) {
        rest.push(row)?;
    }
    Ok(())
}

/// What a combination comes to where it is a number that isn't positive.
pub fn judged(form: &Lin, strict: bool) -> Verdict
    ensures fine { result ≡ Open → form.now.parts ≡ [] → pos 0 <ℤ form.now.constant }
    ensures tight { result ≡ Tight → (form.now.parts ≡ []) × (form.now.constant ≡ pos 0) × (strict ≡ false) }
    ensures refuted { result ≡ Contradiction → (form.now.parts ≡ []) × (form.now.constant <ℤ pos 0 ⊎ ((form.now.constant ≡ pos 0) × (strict ≡ true))) }
{
    if !form.parts.is_empty() || form.constant > 0 {
        return Verdict::Open;
    }
    if form.constant < 0 || strict {
        return Verdict::Contradiction;
    }
    Verdict::Tight
}

/// The combination of two forms on a name with these last parts.
fn combined(
    alloc: Global,
    name: Name,
    lower: &Lin,
    rising: Option<Part>,
    upper: &Lin,
    falling: Option<Part>,
) -> Result<Lin, NumFail>
    requires lower { IsNormal lower.now }
    requires upper { IsNormal upper.now }
    requires rising { IsSome rising }
    requires falling { IsSome falling }
    requires rising_factor { IfSome rising (λ part. factor_of lower.now.parts name ≡ part.factor) }
    requires falling_factor { IfSome falling (λ part. factor_of upper.now.parts name ≡ part.factor) }
    requires within { IfSome falling (λ part. FitsLimits part.factor) }
    ensures exact { IfOk result (λ form. SameMeaning (meaning form) (combination name (meaning lower.now) (meaning upper.now))) }
    ensures normal { IfOk result (λ form. IsNormal form) }
{
    match (rising, falling) {
        (Some(rising), Some(falling)) => combine(
            alloc,
            name,
            lower,
            rising.factor,
            upper,
            falling.factor,
        ),
        _ => unreachable!(),
    }
}

/// Whether one of two rows is strict.
fn one_strict(left: &Row, right: &Row) -> bool
    ensures { result ≡ (left.now.strict || right.now.strict) }
{
    left.strict || right.strict
}

/// The combination of a lower and an upper row, which is added to the rest where it is new.
pub fn cover(
    alloc: Global,
    name: Name,
    lower: &Row,
    upper: &Row,
    rest: &mut Items<Row>,
) -> Result<Verdict, NumFail>
    requires lower { IsLowerRow name lower.now }
    requires upper { IsUpperRow name upper.now }
    requires rest { AllByRecursion (IsRestRow name) rest.old }
    ensures rest { OnOk result (AllByRecursion (IsRestRow name) rest.new) }
    ensures kept { OnOk result (AreAmong rest.old rest.new) }
    ensures covered { IfOk result (λ verdict. verdict ≡ Open → IsCovered (HasForm rest.new) (combination name (meaning lower.now.lin) (meaning upper.now.lin))) }
    ensures derived { OnOk result ((given : List Inequality) → IsDerived given lower.now → IsDerived given upper.now → AllByRecursion (IsDerived given) rest.old → AllByRecursion (IsDerived given) rest.new) }
    ensures judged { IfOk result (λ verdict. (given : List Inequality) → IsDerived given lower.now → IsDerived given upper.now → IsJudged given verdict) }
{
    let rising = last(lower.lin.parts.as_slice());
    let falling = last(upper.lin.parts.as_slice());
    let lin = combined(alloc, name, &lower.lin, rising, &upper.lin, falling)?;
    let strict = one_strict(lower, upper);
    match judged(&lin, strict) {
        Verdict::Open => {
            let row = row_of(alloc, lin, strict)?;
            add(rest, row)?;
            Ok(Verdict::Open)
        }
        Verdict::Tight => Ok(Verdict::Tight),
        Verdict::Contradiction => Ok(Verdict::Contradiction),
    }
}

/// The worse of two verdicts.
fn worse(left: Verdict, right: Verdict) -> Verdict
    ensures left { result ≡ Open → left ≡ Open }
    ensures right { result ≡ Open → right ≡ Open }
    ensures refuted { left ≡ Contradiction ⊎ right ≡ Contradiction → result ≡ Contradiction }
    ensures judged { (given : List Inequality) → IsJudged given left → IsJudged given right → IsJudged given result }
{
    match left {
        Verdict::Open => right,
        Verdict::Contradiction => Verdict::Contradiction,
        Verdict::Tight => match right {
            Verdict::Contradiction => Verdict::Contradiction,
            Verdict::Open => Verdict::Tight,
            Verdict::Tight => Verdict::Tight,
        },
    }
}

/// The combinations of one lower row with all upper ones.
fn cover_uppers(
    alloc: Global,
    name: Name,
    lower: &Row,
    uppers: &[Row],
    rest: &mut Items<Row>,
) -> Result<Verdict, NumFail>
    requires lower { IsLowerRow name lower.now }
    requires uppers { AllByRecursion (IsUpperRow name) uppers.now }
    requires rest { AllByRecursion (IsRestRow name) rest.old }
    ensures rest { OnOk result (AllByRecursion (IsRestRow name) rest.new) }
    ensures kept { OnOk result (AreAmong rest.old rest.new) }
    ensures covered { IfOk result (λ verdict. verdict ≡ Open → AreCovered name (lower.now ∷ []) uppers.now (HasForm rest.new)) }
    ensures derived { OnOk result ((given : List Inequality) → IsDerived given lower.now → AllByRecursion (IsDerived given) uppers.now → AllByRecursion (IsDerived given) rest.old → AllByRecursion (IsDerived given) rest.new) }
    ensures judged { IfOk result (λ verdict. (given : List Inequality) → IsDerived given lower.now → AllByRecursion (IsDerived given) uppers.now → IsJudged given verdict) }
{
    let mut verdict = Verdict::Open;
    for upper in uppers {
        verdict = worse(verdict, cover(alloc, name, lower, upper, rest)?);
    }
    Ok(verdict)
}

/// The combinations of all lower rows with all upper ones.
pub fn cover_all(
    alloc: Global,
    name: Name,
    lowers: &[Row],
    uppers: &[Row],
    rest: &mut Items<Row>,
) -> Result<Verdict, NumFail>
    requires lowers { AllByRecursion (IsLowerRow name) lowers.now }
    requires uppers { AllByRecursion (IsUpperRow name) uppers.now }
    requires rest { AllByRecursion (IsRestRow name) rest.old }
    ensures rest { OnOk result (AllByRecursion (IsRestRow name) rest.new) }
    ensures kept { OnOk result (AreAmong rest.old rest.new) }
    ensures covered { IfOk result (λ verdict. verdict ≡ Open → AreCovered name lowers.now uppers.now (HasForm rest.new)) }
    ensures derived { OnOk result ((given : List Inequality) → AllByRecursion (IsDerived given) lowers.now → AllByRecursion (IsDerived given) uppers.now → AllByRecursion (IsDerived given) rest.old → AllByRecursion
        (IsDerived given) rest.new) }
    ensures judged { IfOk result (λ verdict. (given : List Inequality) → AllByRecursion (IsDerived given) lowers.now → AllByRecursion (IsDerived given) uppers.now → IsJudged given verdict) }
{
    let mut verdict = Verdict::Open;
    for lower in lowers {
        verdict = worse(verdict, cover_uppers(alloc, name, lower, uppers, rest)?);
    }
    Ok(verdict)
}

/// All names eliminated, the smallest last.
#[derive(Debug, Drop)]
pub struct Eliminated {
    pub verdict: Verdict,
    pub stages: Items<Stage>,
    pub rest: Items<Row>,
}

/// Eliminates all names, unless a combination can't hold.
pub fn eliminate(alloc: Global, rows: Items<Row>) -> Result<Eliminated, NumFail>
    requires { AllByRecursion IsGoodRow rows }
    ensures kept { IfOk result (λ all. (f : Form ℕ) → HasForm rows f → HasAny all.stages all.rest f) }
    ensures closed { IfOk result (λ all. all.verdict ≡ Open → IsClosed (HasAny all.stages all.rest)) }
    ensures numbers { IfOk result (λ all. all.verdict ≡ Open → HasPositiveNumbers (HasAny all.stages all.rest)) }
    ensures stages { IfOk result (λ all. AllByRecursion (IsStage 0) all.stages) }
    ensures falling { IfOk result (λ all. AreFalling all.stages) }
    ensures good { IfOk result (λ all. AllByRecursion IsGoodRow all.rest) }
    ensures done { IfOk result (λ all. reach all.rest ≡ 0) }
    ensures judged { IfOk result (λ all. (given : List Inequality) → AllByRecursion (IsDerived given) rows → IsJudged given all.verdict) }
{
    let mut rest = rows;
    let mut stages: Items<Stage> = Items::new(alloc);
    let mut verdict = Verdict::Open;
    'names: while let Some(name) = greatest(rest.as_slice()) {
        let (stage, smaller) = split(alloc, name, rest)?;
        rest = smaller;
        let found = cover_all(
            alloc,
            name,
            stage.lowers.as_slice(),
            stage.uppers.as_slice(),
            &mut rest,
        )?;
        verdict = worse(verdict, found);
        stages.push(stage)?;
    }
    Ok(Eliminated {
        verdict,
        stages,
        rest,
    })
}
