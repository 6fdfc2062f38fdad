//! The rows of all inequality literals of a trail.
ghost use Rattle.std.specs.Prelude.{◌≡◌, [], Bool, true, List, length, Err, Some, OnOk, IfOk};
ghost use Rattle.std.specs.List.{Contains};
ghost use Rattle.ae_core.specs.Sorts.{formula_ok};
ghost use Rattle.ae_core.specs.declared.formulas.Lit.{Lit as LitValue};
ghost use Rattle.ae_core.specs.declared.terms.Term.{Term};
ghost use Rattle.ae_journal.specs.Licences.{IsLicensed};
ghost use Rattle.ae_journal.specs.Standing.{Setting, MayStand};
ghost use Rattle.ae_journal.specs.States.{inequality};
ghost use Rattle.ae_journal.specs.declared.answers.WideAt.{WideAt};
ghost use Rattle.ae_journal.specs.declared.lines.Line.{Line};
ghost use Rattle.ae_theory.specs.Names.{AreNamed, terms_in};
ghost use Rattle.ae_theory.specs.declared.theory.Fail.TheVariants.{Steps, Number};
ghost use Rattle.ae_state.specs.Names.{assumed_in, system_now, terms_now};
ghost use Rattle.ae_state.specs.Fitting.{FitsStore};
ghost use Rattle.ae_inequalities.specs.Held.{Fits, AreOfTags};
ghost use Rattle.ae_agreed_rows.specs.Kept.{AreKeptFor};
ghost use Rattle.ae_opaque_numbers.specs.Opaque.{AreOpaqueNumbers};
ghost use Rattle.ae_literal_rows.specs.Beside.{IsBeside, IsTold};
ghost use Rattle.ae_literal_rows.specs.Trails.{AreAdded, AreMarked, literals_from};
ghost use Rattle.ae_literal_rows.specs.Inner.Adding.{IsRowAdded};

use crate::literals::literal_row;
use ae_combine::State;
use ae_core::formulas::Lit;
use ae_explain::Assigned;
use ae_inequalities::bounds::Bounds;
use ae_journal::systems::System;
use ae_store::store::Store;
use ae_theory::theory::Fail;
use std::alloc::Global;

/// Adds the row of a literal, if it is an inequality, as one that counts or not.
fn add_row(
    alloc: Global,
    store: &Store,
    state: &State,
    system: &System,
    lit: &Lit,
    tag: usize,
    counts: bool,
    rows: &mut Bounds,
) -> Result<(), Fail>
    requires fits { FitsStore state.now store.now }
    requires taken { terms_now state.now ≡ terms_in store.now }
    requires system { system.now ≡ system_now state.now }
    requires opaque { AreOpaqueNumbers store.now.signature (system_now state.now) }
    requires named { AreNamed store.now lit.now.formula }
    requires sorted { formula_ok store.now.signature lit.now.formula ≡ true }
    requires assumed { (s t : Term) (strict : Bool) → inequality lit.now ≡ Some (s, t, strict) → Contains (assumed_in state.now) (record { lit = lit.now; tag = tag }) }
    requires fit { Fits store.now rows.old }
    ensures added { OnOk result (IsRowAdded store.now state.now lit.now tag counts rows.old rows.new) }
    ensures fits { Fits store.now rows.new }
    ensures of_tags { AreOfTags (assumed_in state.now) rows.old → AreOfTags (assumed_in state.now) rows.new }
    ensures number { (wide : WideAt) → result ≡ Err (Number wide) → (x : Setting) (js : List Line) → IsBeside x js store.now state.now → MayStand x js lit.now → IsLicensed x js wide }
    ensures steps { ¬ (result ≡ Err Steps) }
{
    let found = literal_row(alloc, store, state, system, lit, tag)?;
    match found {
        None => Ok(()),
        Some(row) => {
            rows.assume(alloc, store, row, counts)?;
            Ok(())
        }
    }
}

/// Adds the rows of the inequality literals at the places of the trail from this one on, in their order; those that are marked count.
///
/// Each place is the tag of its literal. `Number` comes only where a product or a sum of a difference of two values leaves the limits: it is licensed where the
/// literals may stand.
pub fn more_rows(
    alloc: Global,
    store: &Store,
    state: &State,
    system: &System,
    trail: &[Assigned],
    marks: &[bool],
    from: usize,
    rows: &mut Bounds,
) -> Result<(), Fail>
    requires fits { FitsStore state.now store.now }
    requires taken { terms_now state.now ≡ terms_in store.now }
    requires system { system.now ≡ system_now state.now }
    requires opaque { AreOpaqueNumbers store.now.signature (system_now state.now) }
    requires told { IsTold state.now store.now trail.now }
    requires marks { length marks.now ≡ length trail.now }
    requires fit { Fits store.now rows.old }
    requires even { length rows.old.tags ≡ length rows.old.given }
    ensures added { OnOk result (AreAdded store.now state.now trail.now marks.now from (length trail.now) rows.old rows.new) }
    ensures fits { Fits store.now rows.new }
    ensures of_tags { AreOfTags (assumed_in state.now) rows.old → AreOfTags (assumed_in state.now) rows.new }
    ensures even { OnOk result (length rows.new.tags ≡ length rows.new.given) }
    ensures number { (wide : WideAt) → result ≡ Err (Number wide) → (x : Setting) (js : List Line) → IsBeside x js store.now state.now → ((l : LitValue) → Contains (literals_from trail.now 0) l → MayStand x js l) → IsLicensed x js wide }
    ensures steps { ¬ (result ≡ Err Steps) }
{
    for place in from..trail.len() {
        let lit = &trail[place].lit;
        let counts = marks[place];
        add_row(alloc, store, state, system, lit, place, counts, rows)?;
    }
    Ok(())
}

/// The rows of the inequality literals of a trail, in their order; those that are marked count.
///
/// `Number` comes only where a product or a sum of a difference of two values leaves the limits: it is licensed where the literals may stand.
pub fn trail_rows(
    alloc: Global,
    store: &Store,
    state: &State,
    system: &System,
    trail: &[Assigned],
    marks: &[bool],
) -> Result<Bounds, Fail>
    requires fits { FitsStore state.now store.now }
    requires taken { terms_now state.now ≡ terms_in store.now }
    requires system { system.now ≡ system_now state.now }
    requires opaque { AreOpaqueNumbers store.now.signature (system_now state.now) }
    requires told { IsTold state.now store.now trail.now }
    requires marks { length marks.now ≡ length trail.now }
    ensures kept { IfOk result (λ b. (x : Setting) (js : List Line) → IsBeside x js store.now state.now → AreMarked x js trail.now marks.now → AreKeptFor x js (literals_from trail.now 0) b.rows) }
    ensures added { IfOk result (λ b. AreAdded store.now state.now trail.now marks.now 0 (length trail.now) (record { rows = []; given = []; tags = [] }) b) }
    ensures fits { IfOk result (λ b. Fits store.now b) }
    ensures of_tags { IfOk result (λ b. AreOfTags (assumed_in state.now) b) }
    ensures even { IfOk result (λ b. length b.tags ≡ length b.given) }
    ensures number { (wide : WideAt) → result ≡ Err (Number wide) → (x : Setting) (js : List Line) → IsBeside x js store.now state.now → ((l : LitValue) → Contains (literals_from trail.now 0) l → MayStand x js l) → IsLicensed x js wide }
    ensures steps { ¬ (result ≡ Err Steps) }
{
    let mut rows = Bounds::new(alloc);
    more_rows(alloc, store, state, system, trail, marks, 0, &mut rows)?;
    Ok(rows)
}

/// Adds the row of a literal, if it is an inequality and isn't to be left out.
fn add_unless(
    alloc: Global,
    store: &Store,
    state: &State,
    system: &System,
    lit: &Lit,
    tag: usize,
    left_out: bool,
    rows: &mut Bounds,
) -> Result<(), Fail>
    requires fits { FitsStore state.now store.now }
    requires taken { terms_now state.now ≡ terms_in store.now }
    requires system { system.now ≡ system_now state.now }
    requires opaque { AreOpaqueNumbers store.now.signature (system_now state.now) }
    requires named { AreNamed store.now lit.now.formula }
    requires sorted { formula_ok store.now.signature lit.now.formula ≡ true }
    requires assumed { (s t : Term) (strict : Bool) → inequality lit.now ≡ Some (s, t, strict) → Contains (assumed_in state.now) (record { lit = lit.now; tag = tag }) }
    requires fit { Fits store.now rows.old }
    ensures fits { Fits store.now rows.new }
    ensures of_tags { AreOfTags (assumed_in state.now) rows.old → AreOfTags (assumed_in state.now) rows.new }
{
    if left_out {
        return Ok(());
    }
    add_row(alloc, store, state, system, lit, tag, true, rows)
}

/// The rows of the inequality literals of a trail but for those that are left out, in their order.
pub fn other_rows(
    alloc: Global,
    store: &Store,
    state: &State,
    system: &System,
    trail: &[Assigned],
    left_out: &[bool],
) -> Result<Bounds, Fail>
    requires fits { FitsStore state.now store.now }
    requires taken { terms_now state.now ≡ terms_in store.now }
    requires system { system.now ≡ system_now state.now }
    requires opaque { AreOpaqueNumbers store.now.signature (system_now state.now) }
    requires told { IsTold state.now store.now trail.now }
    requires left_out { length left_out.now ≡ length trail.now }
    ensures fits { IfOk result (λ b. Fits store.now b) }
    ensures of_tags { IfOk result (λ b. AreOfTags (assumed_in state.now) b) }
{
    let mut rows = Bounds::new(alloc);
    for place in 0..trail.len() {
        let lit = &trail[place].lit;
        let skipped = left_out[place];
        add_unless(alloc, store, state, system, lit, place, skipped, &mut rows)?;
    }
    Ok(rows)
}
