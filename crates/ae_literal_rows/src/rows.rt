//! The row of an inequality literal between two names.
ghost use Rattle.std.specs.Prelude.{◌≡◌, ◌∷◌, ◌++◌, ◌<◌, ◌*ℤ◌, ℕ, Bool, List, Err, OnOk, IfOk, not};
ghost use Rattle.std.specs.List.{Contains};
ghost use Rattle.ae_math.specs.Forms.{minus};
ghost use Rattle.ae_num.specs.Forms.{meaning, SameMeaning, IsNormal};
ghost use Rattle.ae_num.specs.Limits.{FitsLimits};
ghost use Rattle.ae_journal.specs.Licences.{IsLicensed};
ghost use Rattle.ae_journal.specs.Standing.{Setting, MayStand};
ghost use Rattle.ae_journal.specs.declared.answers.WideAt.{WideAt};
ghost use Rattle.ae_journal.specs.declared.lines.Line.{Line};
ghost use Rattle.ae_state_steps.specs.ValueSteps.{IsNumberName};
ghost use Rattle.ae_theory.specs.Names.{terms_in};
ghost use Rattle.ae_theory.specs.Noting.{IsBlockOf};
ghost use Rattle.ae_theory.specs.declared.theory.Fail.TheVariants.{Steps, Number};
ghost use Rattle.ae_value_table.specs.Table.{number_at};
ghost use Rattle.ae_state.specs.Names.{assumed_in, system_now};
ghost use Rattle.ae_turns.specs.Representing.{IsTaken};
ghost use Rattle.ae_bound_blocks.specs.Said.{IsGiven};
ghost use Rattle.ae_given_rows.specs.Sides.{IsBetween};
ghost use Rattle.ae_inequalities.specs.Rows.{IsRightRow};
ghost use Rattle.ae_agreed_rows.specs.Kept.{IsFormOf};
ghost use Rattle.ae_opaque_numbers.specs.Opaque.{AreOpaqueNumbers};
ghost use Rattle.ae_literal_rows.specs.Beside.{IsBeside};

use crate::naming::{is_real, number_of};
use ae_bound_blocks::given::Given;
use ae_combine::State;
use ae_core::formulas::Lit;
use ae_core::lists::List;
use ae_entering::laws::entries_of_all_names_fit;
use ae_given_rows::given::{Side, given_row};
use ae_inequalities::rows::Row;
use ae_journal::systems::System;
use ae_num::forms::{Lin, Name};
use ae_row_differences::differences::difference;
use ae_row_differences::laws::inequality_widths_are_licensed;
use ae_store::store::Store;
use ae_theory::theory::{Derived, Fail};
use std::alloc::{AllocError, Global};

/// Adds numbers.
fn add_all(alloc: Global, all: &mut List<usize>, more: &[usize]) -> Result<(), AllocError>
    ensures { OnOk result (all.new ≡ all.old ++ more.now) }
{
    let copies = List::from_slice(alloc, more)?;
    all.append(copies)
}

/// A tag before the tags of two derivations.
fn tags_of(
    alloc: Global,
    tag: usize,
    lower: &[usize],
    upper: &[usize],
) -> Result<List<usize>, AllocError>
    ensures { IfOk result (λ tags. tags ≡ tag ∷ lower.now ++ upper.now) }
{
    let mut tags = List::new(alloc);
    tags.push(tag)?;
    add_all(alloc, &mut tags, lower)?;
    add_all(alloc, &mut tags, upper)?;
    Ok(tags)
}

/// A name with the number that is its value.
#[derive(Clone, Copy)]
struct Valued<'a> {
    name: Name,
    value: &'a Lin,
}

/// Lines that give a row, with their tags.
#[derive(Drop)]
struct Grounds {
    given: Given,
    tags: List<usize>,
}

/// Why the row holds whose form is the difference of the values of two names.
fn grounds_of(
    alloc: Global,
    store: &Store,
    state: &State,
    lit: &Lit,
    tag: usize,
    strict: bool,
    real: bool,
    upper: Valued<'_>,
    lower: Valued<'_>,
    form: &Lin,
) -> Result<Grounds, AllocError>
    requires taken { IsTaken state.now store.now }
    requires between { IsBetween (terms_in store.now) lit.now strict upper.name lower.name }
    requires upper { IsNumberName store.now.signature (terms_in store.now) real upper.name }
    requires lower { IsNumberName store.now.signature (terms_in store.now) real lower.name }
    requires upper_value { upper.value.now ≡ number_at state.now.values upper.name }
    requires lower_value { lower.value.now ≡ number_at state.now.values lower.name }
    requires assumed { Contains (assumed_in state.now) (record { lit = lit.now; tag = tag }) }
    requires normal { IsNormal form.now }
    requires difference { SameMeaning (meaning form.now) (minus (meaning upper.value.now) (meaning lower.value.now)) }
    requires within { FitsLimits (upper.value.now.den *ℤ lower.value.now.den) }
    ensures given { IfOk result (λ g. IsGiven store.now.signature (terms_in store.now) real (record { lin = form.now; strict = strict }) g.given) }
    ensures real { IfOk result (λ g. g.given.real ≡ real) }
    ensures block { IfOk result (λ g. IsBlockOf (assumed_in state.now) g.given.deriv.hyps g.tags) }
    ensures first { IfOk result (λ g. (more : List ℕ) × (g.tags ≡ tag ∷ more)) }
{
    entries_of_all_names_fit();
    let upper_why = state.explain_value(alloc, store, upper.name)?;
    let lower_why = state.explain_value(alloc, store, lower.name)?;
    let above = Side {
        name: upper.name,
        value: upper.value,
        why: &upper_why.deriv,
    };
    let below = Side {
        name: lower.name,
        value: lower.value,
        why: &lower_why.deriv,
    };
    let given = given_row(alloc, store, lit, strict, real, &above, &below, form)?;
    let tags = tags_of(
        alloc,
        tag,
        lower_why.tags.as_slice(),
        upper_why.tags.as_slice(),
    )?;
    Ok(Grounds { given, tags })
}

/// A form with the lines that give it, as a row.
fn row_of(lin: Lin, strict: bool, grounds: Grounds) -> Row
    ensures { result ≡ record { lin = lin; strict = strict; integral = not grounds.given.real; multiple = grounds.given.multiple; real = grounds.given.real; from = record { deriv = grounds.given.deriv; tags = grounds.tags } } }
{
    let Grounds { given, tags } = grounds;
    let Given {
        deriv,
        multiple,
        real,
    } = given;
    Row {
        lin,
        strict,
        integral: !real,
        multiple,
        real,
        from: Derived { deriv, tags },
    }
}

/// The row of an inequality literal between two names.
pub fn row_between(
    alloc: Global,
    store: &Store,
    state: &State,
    system: &System,
    lit: &Lit,
    tag: usize,
    strict: bool,
    upper: Name,
    lower: Name,
) -> Result<Row, Fail>
    requires taken { IsTaken state.now store.now }
    requires system { system.now ≡ system_now state.now }
    requires opaque { AreOpaqueNumbers store.now.signature (system_now state.now) }
    requires between { IsBetween (terms_in store.now) lit.now strict upper lower }
    requires numbers { (real : Bool) × IsNumberName store.now.signature (terms_in store.now) real upper × IsNumberName store.now.signature (terms_in store.now) real lower }
    requires assumed { Contains (assumed_in state.now) (record { lit = lit.now; tag = tag }) }
    ensures form { IfOk result (λ r. (x : Setting) (js : List Line) → IsBeside x js store.now state.now → IsFormOf x js lit.now r.lin r.strict r.integral) }
    ensures normal { IfOk result (λ r. IsNormal r.lin) }
    ensures right { IfOk result (λ r. IsRightRow store.now.signature (terms_in store.now) r) }
    ensures block { IfOk result (λ r. IsBlockOf (assumed_in state.now) r.from.deriv.hyps r.from.tags) }
    ensures first { IfOk result (λ r. (more : List ℕ) × (r.from.tags ≡ tag ∷ more)) }
    ensures number { (wide : WideAt) → result ≡ Err (Number wide) → (x : Setting) (js : List Line) → IsBeside x js store.now state.now → MayStand x js lit.now → IsLicensed x js wide }
    ensures steps { ¬ (result ≡ Err Steps) }
{
    entries_of_all_names_fit();
    inequality_widths_are_licensed();
    let above = number_of(system, upper);
    let below = number_of(system, lower);
    let form = difference(alloc, above, below)?;
    let real = is_real(&store.node(upper).sort);
    let why = grounds_of(
        alloc,
        store,
        state,
        lit,
        tag,
        strict,
        real,
        Valued {
            name: upper,
            value: above,
        },
        Valued {
            name: lower,
            value: below,
        },
        &form,
    )?;
    Ok(row_of(form, strict, why))
}
