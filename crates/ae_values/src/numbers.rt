//! A number is put for a name.
ghost use Rattle.std.specs.Prelude.{◌≡◌, ◌≢◌, ◌<◌, ℕ, [], ◌∷◌, true, Some, OnOk, OnErr, IfErr};
ghost use Rattle.std.specs.List.{AllByRecursion};
ghost use Rattle.ae_num.specs.Forms.{IsNormal, IfWide, has_key};
ghost use Rattle.ae_linear.specs.declared.rows.Row.{Row};
ghost use Rattle.ae_linear.specs.Rows.{row_at, IsFirstWide};
ghost use Rattle.ae_store.specs.Growing.{IsFront};
ghost use Rattle.ae_store.specs.Shapes.{shapes};
ghost use Rattle.ae_store.specs.Terms.{terms};
ghost use Rattle.ae_just.specs.Steps.{Fits};
ghost use Rattle.ae_settled.specs.Valued.{AreValues, IsOwnNumber};
ghost use Rattle.ae_state_steps.specs.ValueSteps.{sort_for, StatesValue};
ghost use Rattle.ae_value_changes.specs.Put.{IsNumberPut};
ghost use Rattle.ae_value_table.specs.Table.{held, just_at, values as values_of};
ghost use Rattle.ae_value_table.specs.Versions.{IsAs, Lasts};
ghost use Rattle.ae_value_fitting.specs.Fitting.{system_in, held_by, ArePatterns, AreSaid};
ghost use Rattle.ae_value_fitting.specs.Sources.{SaysValue, AreFromValues};
ghost use Rattle.ae_value_fitting.specs.Refusals.{IfNumber};
ghost use Rattle.ae_value_steps.specs.Stating.{IsStated};
ghost use Rattle.ae_values.specs.Widths.{IsPutWide};
ghost use Rattle.ae_values.specs.Inner.Before.{IsBefore, IsChanged};
ghost use Rattle.ae_values.specs.Inner.Putting.{IsRestatable, IsRestated, AreRestated, IsPuttable};

use crate::occurrences::{Change, changes_of};
use crate::widths::refused_by;
use ae_just::justs::Justs;
use ae_num::copies::copied;
use ae_num::forms::{Lin, Name};
use ae_num::numbers::NumFail;
use ae_steps::Steps;
use ae_store::store::Store;
use ae_value_changes::laws::values_stay_values_when_a_number_is_put;
use ae_value_fitting::Refused;
use ae_value_steps::{Valued, state_put};
use ae_value_table::Values;
use std::alloc::{AllocError, Global};
use std::marker::Brand;
use std::sync::ledger::{Blank, Ledger};

/// Adds the step that states a row in which a number was put for a name.
fn restate(
    alloc: Global,
    values: &mut Values,
    store: &Store,
    justs: &mut Justs,
    change: Change,
    put: &Valued<'_>,
    real: bool,
) -> Result<(), AllocError>
    requires fits { Fits store.now.signature (terms (shapes store.now.nodes)) justs.old }
    requires change { IsRestatable store.now.signature (terms (shapes store.now.nodes)) justs.old real put.now.name put.now.value.now values.old change }
    requires put { IsStated store.now.signature (terms (shapes store.now.nodes)) justs.old real put.now.name put.now.value.now put.now.step }
    ensures done { OnOk result (IsRestated store.now.signature (terms (shapes store.now.nodes)) justs.old justs.new real (change.before.step ∷ put.now.step ∷ []) values.new change.name) }
    ensures kept { OnOk result ((n : ℕ) → n ≢ change.name → just_at values.new n ≡ just_at values.old n) }
    ensures others { values.new ≡ record values.old { justs = values.new.justs } }
    ensures front { IsFront justs.old justs.new }
    ensures fits { Fits store.now.signature (terms (shapes store.now.nodes)) justs.new }
    ensures lasts { Lasts values.old values.new }
{
    let Some(row) = values.row(change.name) else {
        return Ok(());
    };
    let step = state_put(
        alloc,
        store,
        justs,
        change.name,
        &row.value,
        change.before,
        put,
        real,
    )?;
    values.put_just(change.name, step)
}

/// Adds the steps that state the rows in which a number was put for a name.
fn restate_all(
    alloc: Global,
    values: &mut Values,
    store: &Store,
    justs: &mut Justs,
    changes: &[Change],
    put: &Valued<'_>,
    real: bool,
) -> Result<(), AllocError>
    requires fits { Fits store.now.signature (terms (shapes store.now.nodes)) justs.old }
    requires changes { AllByRecursion (IsRestatable store.now.signature (terms (shapes store.now.nodes)) justs.old real put.now.name put.now.value.now values.old) changes.now }
    requires says { AllByRecursion (λ change. SaysValue values.old change.before.step) changes.now }
    requires put { IsStated store.now.signature (terms (shapes store.now.nodes)) justs.old real put.now.name put.now.value.now put.now.step }
    requires put_says { SaysValue values.old put.now.step }
    ensures restated { OnOk result (AreRestated store.now.signature (terms (shapes store.now.nodes)) justs.old justs.new real values.old values.new changes.now) }
    ensures others { values.new ≡ record values.old { justs = values.new.justs } }
    ensures front { IsFront justs.old justs.new }
    ensures fits { Fits store.now.signature (terms (shapes store.now.nodes)) justs.new }
    ensures lasts { Lasts values.old values.new }
{
    for change in changes {
        restate(alloc, values, store, justs, *change, put, real)?;
    }
    Ok(())
}

/// Puts a number for a name, and adds the steps of the rows in which the name stood. A refusal leaves some of it done.
fn put_all(
    alloc: Global,
    values: &mut Values,
    store: &Store,
    justs: &mut Justs,
    changes: &[Change],
    number: Lin,
    put: &Valued<'_>,
    real: bool,
) -> Result<(), NumFail>
    requires number { number ≡ put.now.value.now }
    requires puttable { IsPuttable store.now justs.old values.old put.now.name put.now.value.now put.now.step real }
    requires each { AllByRecursion (IsBefore values.old put.now.name) changes.now }
    requires all { (n k : ℕ) (row : Row) → n < values.old.taken → row_at values.old.rows n ≡ Some row → just_at values.old n ≡ Some k → has_key row.value.parts put.now.name ≡ true → IsChanged changes.now n }
    ensures put { OnOk result (IsNumberPut (held_by store.now.signature store.now.nodes values.old) (sort_for real) put.now.name put.now.value.now (values_of values.new)) }
    ensures said { OnOk result (AreSaid store.now.signature (terms (shapes store.now.nodes)) justs.new values.new) }
    ensures sources { OnOk result (AreFromValues justs.old justs.new values.old values.new (put.now.step ∷ [])) }
    ensures names { OnOk result (held values.new ≡ held values.old) }
    ensures others { values.new ≡ record values.old { rows = values.new.rows; leaves = values.new.leaves; justs = values.new.justs } }
    ensures wide { IfErr result (λ fail. IfWide fail (λ wide. IsFirstWide (λ n. row_at values.old.rows n) put.now.name put.now.value.now wide)) }
    ensures front { IsFront justs.old justs.new }
    ensures fits { Fits store.now.signature (terms (shapes store.now.nodes)) justs.new }
    ensures lasts { Lasts values.old values.new }
{
    values_stay_values_when_a_number_is_put();
    values.put_row(put.name, number)?;
    values.put_just(put.name, put.step)?;
    restate_all(alloc, values, store, justs, changes, put, real)?;
    Ok(())
}

/// The same, counted by a ledger of its own: a refusal goes back to a version that was shared first.
fn put_counted<L: Ledger>(
    alloc: Global,
    values: &mut Values,
    store: &Store,
    justs: &mut Justs,
    changes: &[Change],
    number: Lin,
    put: &Valued<'_>,
    real: bool,
    blank: Blank,
) -> Result<(), NumFail>
    requires brand { blank.name ≡ L.name }
    requires parts { blank.parts ≡ L.parts }
    requires some { 0 < blank.parts }
    requires number { number ≡ put.now.value.now }
    requires puttable { IsPuttable store.now justs.old values.old put.now.name put.now.value.now put.now.step real }
    requires each { AllByRecursion (IsBefore values.old put.now.name) changes.now }
    requires all { (n k : ℕ) (row : Row) → n < values.old.taken → row_at values.old.rows n ≡ Some row → just_at values.old n ≡ Some k → has_key row.value.parts put.now.name ≡ true → IsChanged changes.now n }
    ensures put { OnOk result (IsNumberPut (held_by store.now.signature store.now.nodes values.old) (sort_for real) put.now.name put.now.value.now (values_of values.new)) }
    ensures said { OnOk result (AreSaid store.now.signature (terms (shapes store.now.nodes)) justs.new values.new) }
    ensures sources { OnOk result (AreFromValues justs.old justs.new values.old values.new (put.now.step ∷ [])) }
    ensures names { OnOk result (held values.new ≡ held values.old) }
    ensures others { values.new ≡ record values.old { rows = values.new.rows; leaves = values.new.leaves; justs = values.new.justs } }
    ensures err { OnErr result (IsAs values.new values.old) }
    ensures wide { IfErr result (λ fail. IfWide fail (λ wide. IsFirstWide (λ n. row_at values.old.rows n) put.now.name put.now.value.now wide)) }
    ensures front { IsFront justs.old justs.new }
    ensures fits { Fits store.now.signature (terms (shapes store.now.nodes)) justs.new }
    ensures lasts { Lasts values.old values.new }
{
    let mut steps = Steps::<L>::new(blank);
    let shared = values.share(&mut steps);
    match put_all(alloc, values, store, justs, changes, number, put, real) {
        Ok(()) => Ok(()),
        Err(refused) => {
            values.back(&shared, &mut steps);
            Err(refused)
        }
    }
}

/// Puts a number for a name that is its own number, in the values of all names, where a step states it. Each value that changes gets a step that
/// states it and rests on the step of before and on this one.
///
/// `Number` comes exactly where a stated product or sum leaves the limits, and names the first value, by rising name, in which one does. Any
/// refusal leaves the values as they were.
pub fn put_number(
    alloc: Global,
    values: &mut Values,
    store: &Store,
    justs: &mut Justs,
    name: Name,
    number: Lin,
    just: usize,
    real: bool,
) -> Result<(), Refused>
    requires fits { Fits store.now.signature (terms (shapes store.now.nodes)) justs.old }
    requires patterns { ArePatterns store.now.signature (terms (shapes store.now.nodes)) (held values.old) }
    requires values { AreValues store.now.signature (system_in (terms (shapes store.now.nodes)) values.old) }
    requires said { AreSaid store.now.signature (terms (shapes store.now.nodes)) justs.old values.old }
    requires own { IsOwnNumber store.now.signature (system_in (terms (shapes store.now.nodes)) values.old) (sort_for real) name }
    requires normal { IsNormal number }
    requires over { AllByRecursion (λ p. IsOwnNumber store.now.signature (system_in (terms (shapes store.now.nodes)) values.old) (sort_for real) p.key) number.parts }
    requires other { AllByRecursion (λ p. p.key ≢ name) number.parts }
    requires just { StatesValue justs.old just real name number }
    ensures put { OnOk result (IsNumberPut (held_by store.now.signature store.now.nodes values.old) (sort_for real) name number (values_of values.new)) }
    ensures err { OnErr result (IsAs values.new values.old) }
    ensures values { AreValues store.now.signature (system_in (terms (shapes store.now.nodes)) values.new) }
    ensures said { AreSaid store.now.signature (terms (shapes store.now.nodes)) justs.new values.new }
    ensures sources { AreFromValues justs.old justs.new values.old values.new (just ∷ []) }
    ensures names { held values.new ≡ held values.old }
    ensures others { values.new ≡ record values.old { rows = values.new.rows; leaves = values.new.leaves; justs = values.new.justs } }
    ensures wide { IfErr result (λ refused. IfNumber refused (λ width. IsPutWide values.old name number width)) }
    ensures front { IsFront justs.old justs.new }
    ensures fits { Fits store.now.signature (terms (shapes store.now.nodes)) justs.new }
    ensures lasts { Lasts values.old values.new }
{
    values_stay_values_when_a_number_is_put();
    let _names = store.len();
    let _row = values.row(name);
    let changes = changes_of(alloc, values, name)?;
    let copy = copied(alloc, &number)?;
    let put = Valued {
        name,
        value: &copy,
        step: just,
    };
    match put_counted::<Brand>(
        alloc,
        values,
        store,
        justs,
        changes.as_slice(),
        number,
        &put,
        real,
        Blank::new(1),
    ) {
        Ok(()) => Ok(()),
        Err(fail) => Err(refused_by(alloc, values, name, copy, fail)),
    }
}
